// The calls of crate exports for C: each export is the call of its name and states its clause again, since the C interface wants functions of its own.
#![tactic(auto)]

mod merge;
mod picture;
mod size;
mod spot;
