// Where a row with an id may stand: guesses that are worth nothing until the rows are looked at, so nothing is said of them.
use crate::slots::{SLOTS, slot};
use ids::table::Rows;

// The last row on each slot, and for each row the one before it on its slot.
#[derive(Drop)]
pub(crate) struct Guesses {
    last: [usize; SLOTS],
    before: [usize; SLOTS],
}

impl Guesses {
    // Nothing but this value is made here, and `note` fills it where it lies: a table that a function fills and hands out stands on the stack twice.
    pub(crate) fn none() -> Guesses {
        Guesses {
            last: [0; SLOTS],
            before: [0; SLOTS],
        }
    }

    // These rows, for tables of none. No document has more rows than there are slots.
    #[tactic(auto, unfolding(crate::specs::Slots::slots, model::specs::Sizes::max_rows))]
    pub(crate) fn note(&mut self, rows: &Rows<'_>) {
        for i in 0..rows.len().min(SLOTS) {
            let at = slot(rows.get(i).id());
            self.before[i] = self.last[at];
            self.last[at] = i;
        }
    }

    // What to look at first.
    #[tactic(auto, unfolding(crate::specs::Slots::slots, model::specs::Sizes::max_rows))]
    pub(crate) fn first(&self, id: u64) -> usize {
        self.last[slot(id)]
    }

    // What to look at after row i.
    pub(crate) fn next(&self, i: usize) -> usize {
        self.before.get(i).copied().unwrap_or(i)
    }
}
