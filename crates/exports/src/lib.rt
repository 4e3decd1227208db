// The calls as a Rust or C program meets them (the C interface): numbers and slices of numbers in, the answer as three words out.
#![tactic(auto)]

mod answer;
pub mod merge;
pub mod picture;
pub mod size;
pub mod spot;
