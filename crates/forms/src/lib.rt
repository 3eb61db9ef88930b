// The two forms of a syntax source: how they are read, judged and opened.
#![tactic(auto)]

pub mod agreement;
mod judge;
pub mod law;
pub mod number;
pub mod packed;
pub mod tables;
pub mod word;
