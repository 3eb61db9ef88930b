// A source of one's own, and code over every source that serves it.
#![tactic(auto)]

pub mod count;
pub mod one_module;
