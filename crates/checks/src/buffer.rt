// The buffer of an end's slots as a whole.
ghost use Rattle.std.specs.Prelude.{◌≡◌};
ghost use Rattle.ternary.specs.Sizes.{key_size};
ghost use Rattle.records.specs.SlotBuffers.{slot_count};
ghost use Rattle.checks.specs.Refusals.{answer_of};
ghost use Rattle.checks.specs.BufferRefusals.{slots_fit, slots_refusal};

use crate::refusal::Refusal;
use records::layout;

// Whether a buffer is one of 1 to 256 whole slots.
pub fn slots_fit(s: &[u8]) -> bool
    ensures { result ≡ slots_fit s.now }
{
    if s.len() % layout::SLOT_SIZE != 0 {
        return false;
    }
    let count = s.len() / layout::SLOT_SIZE;
    1 <= count && count <= layout::MOST_SLOTS
}

// How many slots a buffer has, if it is one of 1 to 256 whole slots; else it is refused as 4.
#[tactic(auto, unfolding(crate::specs::BufferRefusals::slots_refusal))]
pub fn slot_count(s: &[u8]) -> Result<usize, Refusal>
    ensures { result ≡ answer_of (slots_refusal s.now) (slot_count key_size s.now) }
{
    if !slots_fit(s) {
        return Err(Refusal::BadSlots);
    }
    Ok(s.len() / layout::SLOT_SIZE)
}
