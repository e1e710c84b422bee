// A key that a caller lends.
ghost use Rattle.std.specs.Prelude.{◌≡◌};
ghost use Rattle.checks.specs.Refusals.{verdict_of};
ghost use Rattle.checks.specs.Keys.{key_refusal};

use crate::refusal::Refusal;
use records::layout;

// Whether a key has a key's length; else it is refused as 1.
#[tactic(auto, unfolding(crate::specs::Keys::key_refusal))]
pub fn check_key(key: &[u8]) -> Result<(), Refusal>
    ensures { result ≡ verdict_of (key_refusal key.now) }
{
    if key.len() != layout::KEY_SIZE {
        return Err(Refusal::Ragged);
    }
    Ok(())
}
