// Check 4 of a row.
ghost use Rattle.std.specs.Prelude.{◌≡◌};
ghost use Rattle.model.specs.Id.{is_id};
ghost use Rattle.model.specs.Malformed.{row_fits, list_key_fits, map_key_fits, set_value_fits, value_fits};
ghost use Rattle.checks.specs.Fits.{is_object, is_key_kind, is_action, is_value, key_fits, insert_fits, start_fits};

use crate::bytes::{key_zero, key_zero_past};
use crate::sizes::{MAX_COUNTER, MAX_KEY};
use ids::kinds::{Action, KeyKind, ValueKind};
use ids::op_id::OpId;
use ids::piece::Row;

#[tactic(auto, unfolding(model::specs::Id::is_id, model::specs::Sizes::max_counter))]
pub fn is_id(i: u64) -> bool
    ensures { result ≡ is_id i }
{
    let counter = OpId(i).counter();
    1 <= counter && counter <= MAX_COUNTER
}

#[tactic(auto, unfolding(crate::specs::Fits::is_object))]
fn is_object(o: u64) -> bool
    ensures { result ≡ is_object o }
{
    o == OpId::ROOT.0 || is_id(o)
}

#[tactic(auto, using(crate::proofs::Tables::key_kind_known))]
fn is_key_kind(k: u64) -> bool
    ensures { result ≡ is_key_kind k }
{
    KeyKind::try_from(k).is_ok()
}

#[tactic(auto, using(crate::proofs::Tables::action_known))]
fn is_action(a: u64) -> bool
    ensures { result ≡ is_action a }
{
    Action::try_from(a).is_ok()
}

fn is_value(kind: ValueKind, value: u64) -> bool
    ensures { result ≡ is_value kind value }
{
    match kind {
        ValueKind::Null => value == 0,
        ValueKind::Boolean => value <= 1,
        _ => true,
    }
}

fn set_value_fits(row: &Row<'_>) -> bool
    ensures { result ≡ set_value_fits row.now }
{
    match ValueKind::try_from(row.value_kind()) {
        Ok(kind) => is_value(kind, row.value()),
        Err(_) => false,
    }
}

#[tactic(auto, unfolding(model::specs::Malformed::value_fits))]
fn value_fits(row: &Row<'_>) -> bool
    ensures { result ≡ value_fits row.now }
{
    if row.does(Action::Set) {
        set_value_fits(row)
    } else if row.does(Action::Increment) {
        row.holds(ValueKind::Signed)
    } else {
        row.holds(ValueKind::Null) && row.value() == 0
    }
}

#[tactic(auto, using(crate::proofs::Parts::list_key_parts))]
fn list_key_fits(row: &Row<'_>) -> bool
    ensures { result ≡ list_key_fits row.now }
{
    if row.key_length() != 0 || !key_zero(row) {
        return false;
    }
    if row.named() == OpId::HEAD.0 {
        row.is_insert()
    } else {
        is_id(row.named())
    }
}

#[tactic(auto, using(crate::proofs::Parts::map_key_parts))]
fn map_key_fits(row: &Row<'_>) -> bool
    ensures { result ≡ map_key_fits row.now }
{
    row.named() == 0 && row.key_length() <= MAX_KEY && key_zero_past(row)
}

#[tactic(auto, unfolding(crate::specs::Fits::key_fits))]
fn key_fits(row: &Row<'_>) -> bool
    ensures { result ≡ key_fits row.now }
{
    if row.on_list() {
        list_key_fits(row)
    } else {
        map_key_fits(row)
    }
}

// A Delete or an Increment is no insert.
#[tactic(auto, unfolding(crate::specs::Fits::insert_fits))]
fn insert_fits(row: &Row<'_>) -> bool
    ensures { result ≡ insert_fits row.now }
{
    !(row.is_insert() && (row.does(Action::Delete) || row.does(Action::Increment)))
}

// The fields whose range depends on no other.
#[tactic(auto, unfolding(crate::specs::Fits::start_fits))]
fn start_fits(row: &Row<'_>) -> bool
    ensures { result ≡ start_fits row.now }
{
    is_id(row.id())
        && is_object(row.object())
        && is_key_kind(row.key_kind())
        && row.insert() <= 1
        && is_action(row.action())
}

#[tactic(auto, using(crate::proofs::Parts::row_parts))]
pub fn row_fits(row: &Row<'_>) -> bool
    ensures { result ≡ row_fits row.now }
{
    start_fits(row) && key_fits(row) && value_fits(row) && insert_fits(row)
}
