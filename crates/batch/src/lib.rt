// The merge of a batch: its operations ordered, placed among the document's rows, and told to their predecessors.
#![tactic(auto)]

pub mod call;
mod entries;
mod find_places;
mod group_words;
pub mod merge;
mod merge_entries;
mod merge_succs;
mod op_entries;
mod op_row;
mod order_ops;
mod order_rows;
mod order_succs;
mod place;
mod runs;
mod sort;
mod stack;
mod walk_doc;
mod walk_list;
mod walk_map;
mod write_entries;
mod write_rows;
mod write_succs;
mod zeros;
