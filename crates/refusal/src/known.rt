// Does the document know an id of the batch? One pass over the document, by the slots that the batch's ids fall on.
ghost use Rattle.std.specs.Prelude.{◌≡◌, length};
ghost use Rattle.refusal.specs.Slots.{slots};
ghost use Rattle.refusal.specs.TakenIds.{word_in};
ghost use Rattle.refusal.specs.Known.{unknown, Marked};

use crate::slots::{SLOTS, slot};
use crate::taken::op_has;
use ids::table::{Ops, Rows, Succs};

// A function of its own, so that no proof writes them out.
fn no_marks() -> [bool; SLOTS]
    ensures { slots ≡ length result }
{
    [false; SLOTS]
}

// The slots that the operations' ids fall on, marked where the table lies: one that is filled and handed out stands on the stack twice.
fn mark(ops: &Ops<'_>, marks: &mut [bool])
    requires { length marks.old ≡ slots }
    ensures { Marked marks.new ops.now }
{
    for i in 0..ops.len() {
        marks[slot(ops.get(i).row().id())] = true;
    }
}

// Is this the id of an operation? Those are searched only where its slot is marked.
fn met(ops: &Ops<'_>, marks: &[bool], id: u64) -> bool
    requires { Marked marks.now ops.now }
    ensures { result ≡ word_in 0 id ops.now }
{
    marks[slot(id)] && op_has(ops, id)
}

pub(crate) fn unknown(rows: &Rows<'_>, succs: &Succs<'_>, ops: &Ops<'_>) -> bool
    ensures { result ≡ unknown rows.now succs.now ops.now }
{
    let mut marks = no_marks();
    mark(ops, &mut marks);
    !rows.iter().any(|row| met(ops, &marks, row.id()))
        && !succs.iter().any(|succ| met(ops, &marks, succ.id()))
}
