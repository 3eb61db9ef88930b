// Paths: how they are read from a source and joined, and the table of distinct ones.
#![tactic(auto)]

pub mod interned;
pub mod join;
pub mod mod_path;
pub mod name;
pub mod reading;
