// The page that is printed on: its bytes, its layout, and its indentation.
#![tactic(auto)]

pub mod fill;
pub mod indent;
pub mod out;
pub mod sink;
