// Outcomes: what a run tells of each packet.
ghost use Rattle.std.specs.Prelude.{◌≡◌, ◌+◌, ◌*◌, ◌≤◌, length};
ghost use Rattle.buffers.specs.Parts.{splice};
ghost use Rattle.records.specs.Layout.{outcome_size};
ghost use Rattle.records.specs.Outcomes.{decode_outcome, encode_outcome, as_outcome, as_struct, or_nothing, unless_nothing};

use crate::{kinds, layout};

#[derive(Clone, Copy, Debug, PartialEq, Eq)]
pub struct Outcome {
    // A number and no enum: outcome_of and lines::put::put_outcomes take any byte.
    pub outcome: u8,
    pub action: u16,
    pub rule: Option<u16>,
    pub slot: Option<u16>,
    pub evicted: Option<u16>,
}

// The number that tells of a rule or a slot: 65,535 where there is none.
pub fn number_or_nothing(number: Option<u16>) -> u16
    ensures { result ≡ or_nothing number }
{
    number.unwrap_or(kinds::NOTHING)
}

// The rule or slot that a number tells of: none where it is 65,535.
#[tactic(auto, unfolding(crate::specs::Outcomes::unless_nothing))]
pub fn unless_nothing(number: u16) -> Option<u16>
    ensures { result ≡ unless_nothing number }
{
    if number == kinds::NOTHING {
        None
    } else {
        Some(number)
    }
}

// The outcome that bytes spell.
#[tactic(auto, unfolding(crate::specs::Outcomes::decode_outcome))]
pub fn outcome_of(c: &[u8]) -> Outcome
    requires { length c.now ≡ outcome_size }
    ensures { result ≡ as_struct (decode_outcome c.now) }
{
    Outcome {
        outcome: c[layout::OUTCOME_KIND],
        action: buffers::be16(c, layout::OUTCOME_ACTION),
        rule: unless_nothing(buffers::be16(c, layout::OUTCOME_RULE)),
        slot: unless_nothing(buffers::be16(c, layout::OUTCOME_SLOT)),
        evicted: unless_nothing(buffers::be16(c, layout::OUTCOME_EVICTED)),
    }
}

// The bytes of an outcome, one by one: `concat` of the numbers' arrays needs a heap, and calls of `put_be16` and its like are no plainer.
#[tactic(auto, unfolding(crate::specs::Outcomes::encode_outcome))]
fn outcome_bytes(x: Outcome) -> [u8; layout::OUTCOME_SIZE]
    ensures { result ≡ encode_outcome (as_outcome x) }
{
    let action = x.action.to_be_bytes();
    let rule = number_or_nothing(x.rule).to_be_bytes();
    let slot = number_or_nothing(x.slot).to_be_bytes();
    let evicted = number_or_nothing(x.evicted).to_be_bytes();
    [
        x.outcome, 0, action[0], action[1], rule[0], rule[1], slot[0], slot[1], evicted[0],
        evicted[1], 0, 0,
    ]
}

// Writes the i-th outcome of a run; every other byte stays.
pub fn put_outcome(out: &mut [u8], i: usize, x: Outcome)
    requires { outcome_size * i + outcome_size ≤ length out.old }
    ensures { out.new ≡ splice (outcome_size * i) (encode_outcome (as_outcome x)) out.old }
{
    let b = outcome_bytes(x);
    buffers::put_bytes(out, layout::OUTCOME_SIZE * i, &b);
}
