// All that a tree holds, written out by meaning.
#![tactic(auto)]

pub mod calls;
pub mod dumper;
pub mod import_list;
pub mod merges;
pub mod parts;
pub mod records;
pub mod run;
pub mod tree;
pub mod uses;
