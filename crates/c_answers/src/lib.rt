// The structs that C reads, and the answer of each call in them.
#![tactic(auto)]

pub mod best;
pub mod count;
pub mod done;
pub mod isolated;
pub mod lookup;
pub mod outcome;
pub mod part;
pub mod structs;
