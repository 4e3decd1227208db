// The checks that rows and operations share: 4, 6 and 7.
#![tactic(auto)]

pub mod bytes;
pub mod find;
pub mod fits;
pub mod refers;
pub mod sizes;
