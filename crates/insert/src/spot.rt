// The walk over a list's elements and their rows (001, without marks).
ghost use Rattle.std.specs.Prelude.{◌≡◌, true, ◌-◌, ◌<◌};
ghost use Rattle.model.specs.Basic.{flag};
ghost use Rattle.insert.specs.Lists.{Walkable, document};
ghost use Rattle.model.specs.WellFormed.{well_formed};
ghost use Rattle.insert.specs.Spotted.{placed_answer, spot_of, spotted};

use crate::list::{first_place, is_list, list_end};
use ids::op_id::OpId;
use ids::refusal::{Reason, Refusal};
use ids::table::{Rows, Succs};
use visible::is_visible;

// An element, and the place behind all its rows.
#[derive(Clone, Copy, PartialEq, Eq)]
pub struct Spot {
    pub element: u64,
    pub place: usize,
}

// One visible element less to come, where this one shows: a yes or no, with no value beside it.
fn less(left: usize, shows: bool) -> usize
    ensures { result ≡ left - flag shows }
{
    left.saturating_sub(usize::from(shows))
}

// The target-th visible element of the list whose rows stand from `first` to `end`, if there are as many. Each element starts at its insert row.
// A labelled loop: the walk is left from its inner loop, at the first insert row beyond the one that it looks for (01).
fn walk(
    rows: &Rows<'_>,
    list: u64,
    first: usize,
    end: usize,
    succs: &Succs<'_>,
    clock: &[u64],
    target: usize,
) -> Option<Spot>
    requires walkable { Walkable rows.now succs.now list first end }
    requires some { 0 < target }
    ensures { result ≡ spotted clock.now (document rows.now succs.now) list target }
{
    let mut element = 0;
    let mut left = target;
    let mut place = first;
    'walk: while place < end {
        let start = place;
        let row = rows.get(start);
        element = row.id();
        let mut shows = is_visible(&row, succs, clock);
        place = start + 1;
        while place < end {
            let next = rows.get(place);
            if next.is_insert() {
                if less(left, shows) == 0 {
                    left = 0;
                    break 'walk;
                }
                break;
            }
            shows = shows || is_visible(&next, succs, clock);
            place += 1;
        }
        left = less(left, shows);
    }
    (left == 0).then_some(Spot { element, place })
}

// The spot in a well-formed document.
#[tactic(auto, unfolding(crate::specs::Spotted::spot_of, crate::specs::Spotted::spotted, model::specs::Spot::spot_refusal), using(crate::proofs::Answers::list_is))]
pub(crate) fn insertion_spot(
    rows: &Rows<'_>,
    succs: &Succs<'_>,
    clock: &[u64],
    list: u64,
    target: usize,
) -> Result<Spot, Refusal>
    requires { well_formed (document rows.now succs.now) ≡ true }
    ensures { placed_answer result ≡ spot_of clock.now (document rows.now succs.now) list target }
{
    if !is_list(rows, list) {
        return Err(Reason::NoList.into());
    }
    let first = first_place(rows, list);
    if target == 0 {
        return Ok(Spot {
            element: OpId::HEAD.0,
            place: first,
        });
    }
    let end = list_end(rows, first, list);
    let spot = walk(rows, list, first, end, succs, clock, target);
    spot.ok_or(Reason::InvalidIndex.into())
}
