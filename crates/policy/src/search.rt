// The best rule of a key in the policy that a caller lends.
ghost use Rattle.std.specs.Prelude.{◌≡◌, ◌≤◌, length};
ghost use Rattle.ternary.specs.Sizes.{key_size};
ghost use Rattle.records.specs.Layout.{most_rules};
ghost use Rattle.records.specs.Rules.{rule_count};
ghost use Rattle.policy.specs.Best.{best_found, better};

use records::layout;

// The best rule of a key.
#[derive(Clone, Copy, Debug, PartialEq, Eq)]
pub struct BestRule {
    pub number: u16,
    pub action: u16,
}

// A rule that matches the key.
#[derive(Clone, Copy, Debug, PartialEq, Eq)]
pub struct Match {
    pub number: usize,
    pub priority: u16,
}

// Of the best so far and a later rule the one that goes before: the later only where its priority is larger.
fn better(best: Option<Match>, later: Match) -> Match
    ensures { result ≡ better best later }
{
    match best {
        Some(earlier) => {
            let is_larger = earlier.priority < later.priority;
            if is_larger { later } else { earlier }
        }
        None => later,
    }
}

// The best rule of a key: of two that match, the one of larger priority, the earlier on a tie. Refusal 3 of the policy is not asked after.
pub fn best_rule(policy: &[u8], key: &[u8]) -> Option<BestRule>
    requires { (rule_count key_size policy.now ≤ most_rules) × (length key.now ≡ key_size) }
    ensures { result ≡ best_found policy.now key.now }
{
    let mut best = None;
    for number in 0..policy.len() / layout::RULE_SIZE {
        if records::rule::rule_matches(policy, number, key) {
            let priority = records::rule::rule_priority(policy, number);
            best = Some(better(best, Match { number, priority }));
        }
    }
    let Match { number, .. } = best?;
    Some(BestRule {
        // A cast: no u16::from takes a usize.
        number: number as u16,
        action: records::rule::rule_action(policy, number),
    })
}
