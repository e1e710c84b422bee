// A decision on a miss, by value: what it tells, and the write that it gives.
ghost use Rattle.std.specs.Prelude.{◌≡◌, List, ℕ, ◌≤◌, ◌<◌};
ghost use Rattle.ends.specs.Ends.{again};
ghost use Rattle.ternary.specs.Sizes.{key_size};
ghost use Rattle.records.specs.Layout.{most_slots};
ghost use Rattle.end_records.specs.Slots.{slots};
ghost use Rattle.records.specs.SlotBuffers.{slot_count};
ghost use Rattle.miss.specs.Decision.{DecidedAs, NoWrite, entry_outcome};

use end_records::slot::slot_at;
use end_records::write::Write;
use records::kinds;
use records::outcome::{Outcome, unless_nothing};

// The outcome of a miss, and the write, where one is given: in outcomes 2, 3 and 5.
#[derive(Clone, Copy)]
pub struct Decision {
    pub outcome: Outcome,
    pub write: Option<Write>,
}

// The decision that gives no write.
pub(crate) fn no_write(outcome: u8, action: u16, rule: Option<u16>) -> Decision
    ensures { NoWrite outcome action rule result }
{
    Decision {
        outcome: Outcome {
            outcome,
            action,
            rule,
            slot: None,
            evicted: None,
        },
        write: None,
    }
}

// The decision that slot i's write is given again, with its old sequence.
pub(crate) fn write_again(keeper: &[u8], i: usize) -> Decision
    requires { (i < slot_count key_size keeper.now) × (slot_count key_size keeper.now ≤ most_slots) }
    ensures { (policy : List ℕ) → DecidedAs policy keeper.now (again i) result }
{
    // Casts of i below: no u16::from takes a usize.
    let slot = slot_at(keeper, i);
    Decision {
        outcome: Outcome {
            outcome: kinds::AGAIN,
            action: slot.action,
            rule: unless_nothing(slot.rule),
            slot: Some(i as u16),
            evicted: None,
        },
        write: Some(Write {
            slot: i as u16,
            sequence: slot.sequence,
            pattern: slot.pattern,
            action: slot.action,
            rule: slot.rule,
        }),
    }
}

// The outcome of a rule that is written to slot i: over its entry, whose rule is evicted, unless it is empty.
pub(crate) fn entry_outcome(keeper: &[u8], i: usize, action: u16, rule: u16) -> Outcome
    requires { (i < slot_count key_size keeper.now) × (slot_count key_size keeper.now ≤ most_slots) }
    ensures { result ≡ entry_outcome (slots key_size keeper.now) i action rule }
{
    // Casts of i below: no u16::from takes a usize.
    let old = slot_at(keeper, i);
    if old.sequence == 0 {
        return Outcome {
            outcome: kinds::TO_EMPTY,
            action,
            rule: Some(rule),
            slot: Some(i as u16),
            evicted: None,
        };
    }
    Outcome {
        outcome: kinds::OVER_ENTRY,
        action,
        rule: Some(rule),
        slot: Some(i as u16),
        evicted: unless_nothing(old.rule),
    }
}
