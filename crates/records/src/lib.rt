// Every offset, size and limit; rules, traces and outcomes, read where they lie.
#![tactic(auto)]

pub mod kinds;
pub mod layout;
pub mod outcome;
pub mod row;
pub mod rule;
pub mod trace;
