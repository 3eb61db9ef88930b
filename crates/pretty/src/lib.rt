// The printed text of an item tree.
#![tactic(auto)]

mod mod_items;
mod parts;
pub mod print;
mod printer;
