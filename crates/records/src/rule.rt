// Rules: the records of a policy.
ghost use Rattle.std.specs.Prelude.{◌≡◌, ◌<◌, length};
ghost use Rattle.model.specs.Policy.{rule_matches, rule_at};
ghost use Rattle.ternary.specs.Sizes.{key_size, positions};
ghost use Rattle.records.specs.Layout.{rule_size};
ghost use Rattle.records.specs.Rules.{decode_rule, rule_count, rule_in, rules};
ghost use Rattle.records.specs.Structs.{as_rule};

use crate::layout;
use crate::row::{pattern_at, rows_at};
use ternary::Pattern;

#[derive(Clone, Copy, Debug, PartialEq, Eq)]
pub struct Rule {
    pub pattern: Pattern,
    pub priority: u16,
    pub action: u16,
}

// The rule that a record spells.
#[tactic(auto, unfolding(crate::specs::Rules::decode_rule))]
fn rule_of(t: &[u8]) -> Rule
    requires { length t.now ≡ rule_size key_size }
    ensures { as_rule result ≡ decode_rule key_size t.now }
{
    Rule {
        pattern: pattern_at(t, layout::RULE_VALUE),
        priority: buffers::be16(t, layout::RULE_PRIORITY),
        action: buffers::be16(t, layout::RULE_ACTION),
    }
}

// The i-th rule of a policy.
pub fn rule_at(policy: &[u8], i: usize) -> Rule
    requires { i < rule_count key_size policy.now }
    ensures { as_rule result ≡ rule_in key_size policy.now i }
{
    let at = layout::RULE_SIZE * i;
    rule_of(&policy[at..at + layout::RULE_SIZE])
}

// Whether the i-th rule of a policy takes the key: its rows are compared where they lie.
pub fn rule_matches(policy: &[u8], i: usize, key: &[u8]) -> bool
    requires { (i < rule_count key_size policy.now) × (length key.now ≡ key_size) }
    ensures { result ≡ rule_matches positions (rules key_size policy.now) key.now i }
{
    let (value, mask) = rows_at(policy, layout::RULE_SIZE * i + layout::RULE_VALUE);
    ternary::matches_row(value, mask, key)
}

// The priority of the i-th rule, read where it lies. It and the action are two functions: what they share is one call.
pub fn rule_priority(policy: &[u8], i: usize) -> u16
    requires { i < rule_count key_size policy.now }
    ensures { result ≡ (rule_at (rules key_size policy.now) i).priority }
{
    buffers::be16(policy, layout::RULE_SIZE * i + layout::RULE_PRIORITY)
}

// The action of the i-th rule, read where it lies.
pub fn rule_action(policy: &[u8], i: usize) -> u16
    requires { i < rule_count key_size policy.now }
    ensures { result ≡ (rule_at (rules key_size policy.now) i).action }
{
    buffers::be16(policy, layout::RULE_SIZE * i + layout::RULE_ACTION)
}
