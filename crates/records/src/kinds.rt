// The outcomes of a packet; all but the hit are of a miss. They are numbers and no enum: `outcome_of` gives back whatever byte a record has.
ghost use Rattle.std.specs.Prelude.{◌≡◌};
ghost use Rattle.records.specs.Outcomes.{gives_write};

// No rule.
pub const NO_RULE: u8 = 0;
// Hit.
pub const HIT: u8 = 1;
// Written to an empty slot.
pub const TO_EMPTY: u8 = 2;
// Written over an entry.
pub const OVER_ENTRY: u8 = 3;
// Sequences used up.
pub const USED_UP: u8 = 4;
// Written again.
pub const AGAIN: u8 = 5;
// No rule, no slot, no evicted rule.
pub const NOTHING: u16 = 65535;

// Whether a write is given: in outcomes 2, 3 and 5.
#[tactic(auto, unfolding(crate::specs::Outcomes::gives_write))]
pub fn gives_write(outcome: u8) -> bool
    ensures { result ≡ gives_write outcome }
{
    matches!(outcome, TO_EMPTY | OVER_ENTRY | AGAIN)
}
