// What test programs share: their files, the questions in them, asking these, and saying what came of a question.
#![tactic(auto)]

pub mod ask;
pub mod files;
pub mod parts;
pub mod questions;
pub mod say;
pub mod slots;
