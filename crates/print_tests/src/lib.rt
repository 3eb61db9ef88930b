// Printed trees, case by case: the nodes, the texts and what treeprint writes.
#![tactic(auto)]

mod cases;
mod pack;
#[cfg(test)]
mod tests;
