// Lowering one node: how each kind of item is recorded in the tables of a tree.
#![tactic(auto)]

pub mod attrs;
pub mod big;
pub mod lowering;
pub mod small;
pub mod use_tree;
pub mod visibility;
