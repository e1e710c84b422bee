// The library as C calls it: numbers and byte slices in, structs of numbers out. A slice is a pointer and a count.
#![tactic(auto)]

pub mod keeper_calls;
pub mod policy_calls;
pub mod run_calls;
pub mod table_calls;
