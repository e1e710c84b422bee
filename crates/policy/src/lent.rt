// Whether the parts that a miss or a decision is lent are refused: a policy, a key and the slots of an end.
ghost use Rattle.std.specs.Prelude.{◌≡◌};
ghost use Rattle.checks.specs.Refusals.{verdict_of};
ghost use Rattle.policy.specs.Lent.{lent_refusal};

use checks::buffer::slot_count;
use checks::key::check_key;
use checks::refusal::Refusal;

// Refusals 1, 2 and 3 of the policy, 1 of the key, 4 of the end.
pub fn check_lent(policy: &[u8], key: &[u8], end: &[u8]) -> Result<(), Refusal>
    ensures { result ≡ verdict_of (lent_refusal policy.now key.now end.now) }
{
    crate::check(policy)?;
    check_key(key)?;
    slot_count(end)?;
    Ok(())
}
