// The picture: the visible rows of each key, with the winner, conflicts and marks.
#![tactic(auto)]

pub mod call;
mod entry;
mod group;
mod picture;
