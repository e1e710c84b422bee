// Slots, writes and reports, as bytes and as values.
#![tactic(auto)]

pub mod entry;
pub mod fields;
pub mod head;
pub mod report;
pub mod slot;
pub mod write;
