// Both forms, case by case: what opening answers, beside the input.
#![tactic(auto)]

mod cases;
mod draft;
#[cfg(test)]
mod tests;
pub mod writer;
