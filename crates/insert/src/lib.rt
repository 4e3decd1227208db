// The insertion spot in a list.
#![tactic(auto)]

pub mod call;
mod list;
pub mod spot;
