// The policy that a caller lends: its check, and the best rule of a key.
#![tactic(auto)]

pub mod lent;
pub mod record;
pub mod search;

ghost use Rattle.std.specs.Prelude.{◌≡◌};
ghost use Rattle.policy.specs.Answers.{check_answer};
ghost use Rattle.policy.specs.BestAnswers.{best_answer};

use crate::search::{BestRule, best_rule};
use checks::flawed::{Rule, record_count};
use checks::key::check_key;
use checks::refusal::Refusal;

// How many rules an accepted policy has: refusals 1, 2 and 3, the last with the place of the first flawed record. It changes nothing.
#[tactic(auto, unfolding(crate::specs::Answers::check_answer, crate::specs::Refusals::policy_refusal))]
pub fn check(policy: &[u8]) -> Result<usize, Refusal>
    ensures { result ≡ check_answer policy.now }
{
    record_count::<Rule>(policy)
}

// The best rule of a key, if it has one: refusals 1, 2 and 3 of the policy, then 1 of the key. It changes nothing.
pub fn best(policy: &[u8], key: &[u8]) -> Result<Option<BestRule>, Refusal>
    ensures { result ≡ best_answer policy.now key.now }
{
    crate::check(policy)?;
    check_key(key)?;
    Ok(best_rule(policy, key))
}
