// The C library: the calls of `wunnagresk` under their C names, with their clauses. A slice is a pointer and a count. C callers link it as
// libwunnagresk.a. Each stands in `wunnagresk` too, which `promises` names: a crate is a library or a static library.
#![tactic(auto)]

pub mod keeper_calls;
pub mod policy_calls;
pub mod run_calls;
pub mod table_calls;
