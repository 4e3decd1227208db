// The first pass over the rows' order: may each row stand right behind the one before it, the places of inserts aside?
ghost use Rattle.std.specs.Prelude.{◌≡◌};
ghost use Rattle.model.specs.Basic.{ascends};
ghost use Rattle.laws.proofs.Passes.{begins, list_next, first_begins};
ghost use Rattle.wellformed.specs.Neighbours.{map_place, key_next, follows};

use ids::piece::Row;
use ids::row::{KEY_WORD, KEY_WORD_2, KEY_WORD_3};
use ids::table::Rows;

// By the key's words, then its length, then by id.
fn map_place(row: &Row<'_>) -> [u64; 5]
    ensures { result ≡ map_place row.now }
{
    [
        row.word(KEY_WORD),
        row.word(KEY_WORD_2),
        row.word(KEY_WORD_3),
        row.key_length(),
        row.id(),
    ]
}

fn key_next(a: &Row<'_>, b: &Row<'_>) -> bool
    ensures { result ≡ key_next a.now b.now }
{
    map_place(a) < map_place(b)
}

// In a list, an insert, or one more row of the same element.
#[tactic(auto, unfolding(laws::proofs::Passes::list_next))]
fn list_next(a: &Row<'_>, b: &Row<'_>) -> bool
    ensures { result ≡ list_next a.now b.now }
{
    b.is_insert() || a.element() == b.element() && a.id() < b.id()
}

// A list begins with an insert.
#[tactic(auto, unfolding(laws::proofs::Passes::begins))]
fn begins(row: &Row<'_>) -> bool
    ensures { result ≡ begins row.now }
{
    !row.on_list() || row.is_insert()
}

#[tactic(auto, unfolding(crate::specs::Neighbours::follows))]
fn follows(a: &Row<'_>, b: &Row<'_>) -> bool
    ensures { result ≡ follows a.now b.now }
{
    if a.object() != b.object() {
        a.object() < b.object() && begins(b)
    } else if b.on_list() {
        list_next(a, b)
    } else {
        key_next(a, b)
    }
}

pub(crate) fn all_follow(rows: &Rows<'_>) -> bool
    ensures { result ≡ ascends follows rows.now }
{
    let behind = rows.part(1, rows.len());
    rows.iter().zip(behind).all(|(a, b)| follows(&a, &b))
}

pub(crate) fn first_begins(rows: &Rows<'_>) -> bool
    ensures { result ≡ first_begins rows.now }
{
    rows.iter().next().is_none_or(|row| begins(&row))
}
