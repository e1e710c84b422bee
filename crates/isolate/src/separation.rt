// Which dependents of a rule a position separates from it, for a key.
ghost use Rattle.std.specs.Prelude.{◌≡◌, not, ℕ, ◌<◌, length, get_or};
ghost use Rattle.model.specs.Below.{keep};
ghost use Rattle.ternary.specs.Sizes.{key_size, positions};
ghost use Rattle.records.specs.Rules.{rule_count};
ghost use Rattle.isolate.specs.Columns.{bit_set, Separating, Marks};

use lists::Numbers;
use lists::list_of::ListOf;
use records::layout;
use records::layout::{KEY_SIZE, MOST_RULES};

// For each of the standing that a byte of the key separates, the bits at which it does.
pub type Column = ListOf<u8, MOST_RULES>;

// The rule that is isolated, and the key that it is isolated for.
#[derive(Clone, Copy)]
pub(crate) struct Asked<'a> {
    pub(crate) policy: &'a [u8],
    pub(crate) key: [u8; KEY_SIZE],
    pub(crate) number: usize,
    ghost low: { number < rule_count key_size policy.now },
}

impl<'a> Asked<'a> {
    ghost use Rattle.isolate.specs.Asked.{rules_of, AreRules, separates_for};

    // The bits of byte b that are wildcards of the rule, and exact in rule d and not as in the key's byte.
    fn separating(&self, b: usize, d: usize) -> u8
        requires { (b < key_size) × (d < rule_count key_size self.now.policy.now) }
        ensures { Separating (rules_of self.now) (get_or self.now.key b 0) self.now.number b d result }
    {
        let policy = self.policy;
        let own = policy[layout::RULE_SIZE * self.number + layout::RULE_MASK + b];
        let mask = policy[layout::RULE_SIZE * d + layout::RULE_MASK + b];
        let value = policy[layout::RULE_SIZE * d + layout::RULE_VALUE + b];
        !own & mask & (value ^ self.key[b])
    }

    // Whether position p is a wildcard of the rule, and exact in rule d with a bit that is not the key's.
    fn separates(&self, p: usize, d: usize) -> bool
        requires { (p < positions) × (d < rule_count key_size self.now.policy.now) }
        ensures { result ≡ separates_for self.now p d }
    {
        self.separating(p / 8, d) >> (7 - p % 8) & 1 == 1
    }

    // The column of byte b of the key: what separates at its eight positions is then counted over bytes side by side.
    pub(crate) fn column_of(&self, b: usize, standing: &Numbers) -> Column
        requires { (b < key_size) × AreRules self.now standing.now.items }
        ensures { Marks (separates_for self.now) b standing.now.items result.items }
    {
        let mut column = Column::new();
        for d in standing.as_slice() {
            let bits = self.separating(b, usize::from(*d));
            if bits != 0 {
                column.push(bits);
            }
        }
        column
    }

    // Those of the standing that position p does not separate, in order.
    // A loop, since `separates` asks for a rule of the policy, and a list by value grows by `push`.
    pub(crate) fn left(&self, p: usize, standing: &Numbers) -> Numbers
        requires { (p < positions) × AreRules self.now standing.now.items }
        ensures { result.items ≡ keep (λ (e : ℕ). not (separates_for self.now p e)) standing.now.items }
    {
        let mut left = Numbers::new();
        for d in standing.as_slice() {
            if !self.separates(p, usize::from(*d)) {
                left.push(*d);
            }
        }
        left
    }
}

// How many of the bytes have bit q, counted from the top.
// A loop: a miss among 1,023 dependents in mixed order takes 1.4 times plain C's, with `filter` and `count` 3.5, and the aim is 3 (docs/FIGURES.md).
pub(crate) fn marked(column: &[u8], q: usize) -> usize
    requires { q < 8 }
    ensures { result ≡ length (keep (bit_set q) column.now) }
{
    let mut n = 0;
    for bits in column {
        if *bits >> (7 - q) & 1 == 1 {
            n += 1;
        }
    }
    n
}
