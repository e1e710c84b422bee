// What a miss comes to, by value: nothing is written yet.
ghost use Rattle.std.specs.Prelude.{◌≡◌, suc};
ghost use Rattle.ends.specs.Ends.{largest};
ghost use Rattle.ternary.specs.Sizes.{key_size};
ghost use Rattle.end_records.specs.Slots.{slots};
ghost use Rattle.records.specs.SlotBuffers.{WholeSlots};
ghost use Rattle.miss.specs.Decision.{DecidedAs};
ghost use Rattle.miss.specs.Decide.{FineMiss, RuleFor, entry_miss, miss_with, rule_miss, miss_in};

use crate::decision::{Decision, entry_outcome, no_write, write_again};
use end_records::write::Write;
use policy::search::{BestRule, best_rule};
use records::{kinds, layout};
use slots::choose::{largest_sequence, slot_for_entry};
use slots::find::first_slot_for;

// A miss whose key has a best rule, and the keeper that it asks.
#[derive(Clone, Copy)]
struct Ruled<'a> {
    policy: &'a [u8],
    key: &'a [u8],
    keeper: &'a [u8],
    best: BestRule,
    ghost ruled: { RuleFor policy.now key.now best.number best.action },
    ghost whole: { WholeSlots keeper.now },
}

impl<'a> Ruled<'a> {
    // The decision that the rule goes, isolated for the key, to the slot for a new entry, under that sequence.
    fn new_entry(&self, sequence: u32) -> Decision
        requires { sequence ≡ suc (largest (slots key_size self.now.keeper.now)) }
        ensures { DecidedAs self.now.policy.now self.now.keeper.now
            (entry_miss self.now.policy.now self.now.key.now self.now.keeper.now self.now.best.number) result }
    {
        let BestRule { number, action } = self.best;
        let isolated = isolate::rounds::isolate_best(self.policy, self.key, usize::from(number));
        let i = slot_for_entry(self.keeper);
        Decision {
            outcome: entry_outcome(self.keeper, i, action, number),
            write: Some(Write {
                // A cast: no u16::from takes a usize.
                slot: i as u16,
                sequence,
                pattern: isolated.pattern,
                action,
                rule: number,
            }),
        }
    }

    // The decision where no slot takes the key: used up, or an entry is placed.
    fn fresh_entry(&self) -> Decision
        ensures { DecidedAs self.now.policy.now self.now.keeper.now
            (miss_with self.now.policy.now self.now.key.now self.now.keeper.now (Some self.now.best.number) None) result }
    {
        let last = largest_sequence(self.keeper);
        if last == layout::LAST_SEQUENCE {
            return no_write(kinds::USED_UP, self.best.action, Some(self.best.number));
        }
        self.new_entry(last + 1)
    }

    // The decision for the key: the write of a slot that takes the key again, or a fresh entry.
    fn with_rule(&self) -> Decision
        ensures { DecidedAs self.now.policy.now self.now.keeper.now
            (rule_miss self.now.policy.now self.now.key.now self.now.keeper.now self.now.best.number) result }
    {
        match first_slot_for(self.keeper, self.key) {
            Some(i) => write_again(self.keeper, i),
            None => self.fresh_entry(),
        }
    }
}

// What a miss comes to, where none of its parts is refused.
pub fn decide_miss(policy: &[u8], key: &[u8], keeper: &[u8]) -> Decision
    requires { FineMiss policy.now key.now keeper.now }
    ensures { DecidedAs policy.now keeper.now
        (miss_in policy.now key.now keeper.now) result }
{
    match best_rule(policy, key) {
        Some(best) => {
            let miss = Ruled {
                policy,
                key,
                keeper,
                best,
            };
            miss.with_rule()
        }
        None => no_write(kinds::NO_RULE, 0, None),
    }
}
