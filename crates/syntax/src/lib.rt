// What every layer reads: nodes and texts behind one interface, and the refusals.
#![tactic(auto)]

pub mod kind;
pub mod law;
pub mod node;
pub mod refusal;
pub mod source;
pub mod walk;
