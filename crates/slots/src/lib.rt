// What the two ends do with slots: find one for a key, store an entry, count a hit, settle, choose the slot for a new entry.
#![tactic(auto)]

pub mod choose;
pub mod entry;
pub mod find;
pub mod hits;
pub mod settle;
