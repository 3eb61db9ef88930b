// The records of an item tree, with the names and fields of the Rust.
#![tactic(auto)]

pub mod attrs;
pub mod ids;
pub mod records;
pub mod rows;
pub mod use_tree;
pub mod visibility;
