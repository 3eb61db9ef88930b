// The tables of a tree: adding to them, going back, and reading them.
#![tactic(auto)]

pub mod alloc;
pub mod back;
pub mod merge;
pub mod names;
pub mod read;
pub mod tree;
