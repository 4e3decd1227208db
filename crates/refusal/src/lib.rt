// The checks 3 to 9 of a batch, and the refusal that they give.
#![tactic(auto)]

pub mod batch;
pub mod check;
pub mod counts;
pub mod first;
pub mod guesses;
pub mod known;
pub mod lent;
pub mod named;
pub mod preds;
pub mod slots;
pub mod taken;
