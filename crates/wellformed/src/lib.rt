// Well-formed documents (refusal 2): a function for each of 01's rules, and all of them together.
#![tactic(auto)]

mod deletes;
pub mod document;
mod increments;
mod nearest;
mod neighbours;
mod owners;
mod passed;
mod rows_alone;
mod rows_pass;
mod rules;
mod succs_alone;
