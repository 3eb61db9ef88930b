// Imports: use trees expanded, and use trees lowered together with their mapping.
#![tactic(auto)]

pub mod expand;
pub mod import;
pub mod lists;
pub mod use_tree;
