// Isolating a rule for a key.
#![tactic(auto)]

pub mod rounds;
pub mod separation;

ghost use Rattle.std.specs.Prelude.{◌≡◌};
ghost use Rattle.checks.specs.Refusals.{verdict_of};
ghost use Rattle.isolate.specs.Answers.{isolate_refusal, isolate_answer};

use crate::rounds::{Isolated, isolate_best};
use checks::key::check_key;
use checks::refusal::Refusal;

// Whether the rule is isolated for the key: refusals 1, 2 and 3 of the policy, then 1 of the key, 6 and 7.
fn check_isolate(policy: &[u8], key: &[u8], number: usize) -> Result<(), Refusal>
    ensures { result ≡ verdict_of (isolate_refusal policy.now key.now number) }
{
    let count = policy::check(policy)?;
    check_key(key)?;
    if number >= count {
        return Err(Refusal::NoSuchRule);
    }
    let best = policy::search::best_rule(policy, key).ok_or(Refusal::NotBest)?;
    if usize::from(best.number) == number {
        Ok(())
    } else {
        Err(Refusal::NotBest)
    }
}

// The key's best rule isolated for it: refusals 1, 2 and 3 of the policy, then 1 of the key, 6 and 7. It changes nothing.
pub fn isolate(policy: &[u8], key: &[u8], number: usize) -> Result<Isolated, Refusal>
    ensures { result ≡ isolate_answer policy.now key.now number }
{
    check_isolate(policy, key, number)?;
    Ok(isolate_best(policy, key, number))
}
