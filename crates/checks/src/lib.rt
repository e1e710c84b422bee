// What is wrong with a record, and the first record that is; how a buffer of slots is refused; the refusals.
#![tactic(auto)]

pub mod buffer;
pub mod flaw;
pub mod flawed;
pub mod key;
pub mod message;
pub mod refusal;
