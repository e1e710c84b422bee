// The rounds of isolating: each fixes the position that separates the most of the dependents that stand.
ghost use Rattle.std.specs.Prelude.{◌≡◌, ◌+◌, ◌*◌, ◌<◌};
ghost use Rattle.model.specs.Isolate.{isolate};
ghost use Rattle.model.specs.Policy.{best, dependents as dependents_at};
ghost use Rattle.ternary.specs.Sizes.{key_size, positions};
ghost use Rattle.records.specs.Rules.{rules};
ghost use Rattle.isolate.specs.Leads.{Leads};
ghost use Rattle.isolate.specs.Ready.{Ready};
ghost use Rattle.isolate.specs.Structs.{as_isolated, with_counts, PatternOf};

use crate::separation::{Asked, marked};
use cover::dependents::dependents_of;
use lists::Numbers;
use records::layout::KEY_SIZE;
use records::row::row_at;
use records::rule::rule_at;
use ternary::Pattern;

// A rule isolated for a key: the pattern, the number of fixed bits, and the wildcard bits left.
#[derive(Clone, Copy)]
pub struct Isolated {
    pub pattern: Pattern,
    pub fixed: usize,
    pub wildcards: usize,
}

// The pattern with the number of its bits that were fixed, and its wildcard bits counted.
fn with_counts(pattern: Pattern, fixed: usize) -> Isolated
    ensures { as_isolated result ≡ with_counts pattern.value pattern.mask fixed }
{
    Isolated {
        pattern,
        fixed,
        wildcards: ternary::bits::wildcard_bits(pattern.mask),
    }
}

// Of the positions that were seen, the one that separates the most of the standing, the lowest on a tie, and how many it separates.
#[derive(Clone, Copy)]
struct Leader {
    position: usize,
    count: usize,
}

impl<'a> Asked<'a> {
    ghost use Rattle.isolate.specs.Asked.{rules_of, AreRules, separated_for};

    // The rule's pattern.
    fn rule_pattern(&self) -> Pattern
        ensures { PatternOf (rules_of self.now) self.now.number result.value result.mask }
    {
        rule_at(self.policy, self.number).pattern
    }

    // The leader once the eight positions of byte b are seen too.
    fn leader_after(&self, standing: &Numbers, b: usize, before: Leader) -> Leader
        requires { (b < key_size) × AreRules self.now standing.now.items ×
            Leads (separated_for self.now standing.now.items) (b * 8) before.position before.count }
        ensures { Leads (separated_for self.now standing.now.items) (b * 8 + 8) result.position result.count }
    {
        let column = self.column_of(b, standing);
        let mut leader = before;
        for q in 0..8 {
            let count = marked(column.as_slice(), q);
            if leader.count < count {
                leader = Leader {
                    position: b * 8 + q,
                    count,
                };
            }
        }
        leader
    }

    // The rule isolated for the key, whose best it is. Its dependents all stand at first.
    // Rounds left by label around a scan whose position comes out by break: the form that docs/SENTENCES.md names for this place.
    fn isolate_rule(&self, dependents: Numbers) -> Isolated
        requires { (best positions (rules_of self.now) self.now.key ≡ Some self.now.number) ×
            (dependents.items ≡ dependents_at positions (rules_of self.now) self.now.number) }
        ensures { as_isolated result ≡ isolate positions (rules_of self.now) self.now.key self.now.number }
    {
        let mut pattern = self.rule_pattern();
        let mut standing = dependents;
        let mut fixed: usize = 0;
        'rounds: loop {
            if standing.is_empty() {
                break 'rounds;
            }
            let mut leader = Leader {
                position: 0,
                count: 0,
            };
            let mut b = 0;
            let p = 'scan: loop {
                if b == KEY_SIZE {
                    break 'scan leader.position;
                }
                leader = self.leader_after(&standing, b, leader);
                b += 1;
            };
            pattern = ternary::bits::fix_bit(pattern, self.key, p);
            standing = self.left(p, &standing);
            fixed += 1;
        }
        with_counts(pattern, fixed)
    }
}

// The key's best rule isolated for it.
pub fn isolate_best(policy: &[u8], key: &[u8], number: usize) -> Isolated
    requires { Ready policy.now key.now number }
    ensures { as_isolated result ≡ isolate positions (rules key_size policy.now) key.now number }
{
    let asked = Asked {
        policy,
        key: row_at(key, 0),
        number,
    };
    asked.isolate_rule(dependents_of(policy, number))
}
