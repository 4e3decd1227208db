// The rules that look at successor entries alone.
ghost use Rattle.std.specs.Prelude.{◌≡◌, [], length};
ghost use Rattle.model.specs.Basic.{any, all, ascends, filter};
ghost use Rattle.model.specs.Document.{succ_before};
ghost use Rattle.model.specs.WellFormed.{succs_ascend, succs_few};
ghost use Rattle.wellformed.specs.Document.{document_of};
ghost use Rattle.wellformed.specs.Rules.{exceeds, is_succ, few};

use ids::piece::Succ;
use ids::sizes::MAX_PREDS;
use ids::table::Succs;

#[tactic(auto, unfolding(model::specs::Document::succ_before))]
fn succ_before(a: &Succ<'_>, b: &Succ<'_>) -> bool
    ensures { result ≡ succ_before a.now b.now }
{
    [a.owner(), a.id()] < [b.owner(), b.id()]
}

// Each entry before the next: one line, as `all_follow` of neighbours.rt is, and a common function would take a test and its proof to save it.
fn ascend(succs: &Succs<'_>) -> bool
    ensures { result ≡ ascends succ_before succs.now }
{
    let behind = succs.part(1, succs.len());
    succs.iter().zip(behind).all(|(a, b)| succ_before(&a, &b))
}

fn exceed_owners(succs: &Succs<'_>) -> bool
    ensures { result ≡ all exceeds succs.now }
{
    succs.iter().all(|entry| entry.owner() < entry.id())
}

// Successors strictly ascend and exceed their row's id.
#[tactic(auto, unfolding(model::specs::WellFormed::succs_ascend, crate::specs::Rules::exceeds))]
pub(crate) fn succs_ascend(succs: &Succs<'_>) -> bool
    ensures { result ≡ succs_ascend (document_of [] succs.now) }
{
    ascend(succs) && exceed_owners(succs)
}

// Is this id a successor?
pub(crate) fn has_succ(succs: &Succs<'_>, id: u64) -> bool
    ensures { result ≡ any (is_succ id) succs.now }
{
    succs.iter().any(|entry| entry.id() == id)
}

// Of how many rows?
fn count_owners(succs: &Succs<'_>, id: u64) -> usize
    ensures { result ≡ length (filter (is_succ id) succs.now) }
{
    succs.iter().filter(|entry| entry.id() == id).count()
}

#[tactic(auto, unfolding(crate::specs::Rules::few))]
fn has_few_owners(succs: &Succs<'_>, entry: &Succ<'_>) -> bool
    ensures { result ≡ few succs.now entry.now }
{
    count_owners(succs, entry.id()) <= MAX_PREDS
}

// No id is a successor of more than 16 rows.
pub(crate) fn succs_few(succs: &Succs<'_>) -> bool
    ensures { result ≡ succs_few (document_of [] succs.now) }
{
    succs.iter().all(|entry| has_few_owners(succs, &entry))
}
