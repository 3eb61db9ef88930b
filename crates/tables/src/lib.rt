// Tables of limited size, parts of them, and index sets over a table that is lent.
#![tactic(auto)]

pub mod index_set;
pub mod key_set;
pub mod part;
pub mod table;
