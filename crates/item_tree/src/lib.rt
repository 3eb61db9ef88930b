// The item tree: it takes items until it is finalized, and is read only afterwards.
#![tactic(auto)]

pub mod lowering;
pub mod tree;
