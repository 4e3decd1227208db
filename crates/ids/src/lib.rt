// Ids and the clock, and the words of lent slices by name.
#![tactic(auto)]

pub mod kinds;
pub mod lent;
pub mod op;
pub mod op_id;
pub mod piece;
pub mod refusal;
pub mod row;
pub mod sizes;
pub mod succ;
pub mod table;
