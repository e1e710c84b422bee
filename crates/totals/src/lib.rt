// The totals that runs advance.
#![tactic(auto)]

ghost use Rattle.std.specs.Prelude.{◌≡◌, [], ◌∷◌, ◌+◌, eqb};
ghost use Rattle.ends.specs.Totals.{is_miss, totals_after};
ghost use Rattle.records.specs.Layout.{most_packets};
ghost use Rattle.records.specs.Outcomes.{as_outcome};
ghost use Rattle.totals.specs.Sums.{as_totals, most_total, totals_fit, AtMost, One};

use records::kinds;
use records::outcome::Outcome;

// Packets, hits (outcome 1), misses (2 to 5), no rule (0) and evictions (3).
#[repr(C)]
#[derive(Clone, Copy, Debug, Default, PartialEq, Eq)]
pub struct Totals {
    pub packets: u64,
    pub hits: u64,
    pub misses: u64,
    pub none: u64,
    pub evictions: u64,
}

// No total may be above this before a run.
const MOST_TOTAL: u64 = 9000000000000000000;

// 1 where the outcome is of that kind, else 0.
fn one_of(outcome: u8, kind: u8) -> u64
    ensures { One (eqb outcome kind) result }
{
    u64::from(outcome == kind)
}

// 1 where the outcome is a miss, else 0. It and the one above are functions, since their contracts bound what is added by 1.
fn one_miss(outcome: u8) -> u64
    ensures { One (is_miss outcome) result }
{
    u64::from(matches!(outcome, kinds::TO_EMPTY..=kinds::AGAIN))
}

// The totals after one packet more.
pub fn advanced(t: Totals, x: Outcome) -> Totals
    requires { AtMost (most_total + most_packets) (as_totals t) }
    ensures { as_totals result ≡ totals_after (as_totals t) (as_outcome x ∷ []) }
{
    Totals {
        packets: t.packets + 1,
        hits: t.hits + one_of(x.outcome, kinds::HIT),
        misses: t.misses + one_miss(x.outcome),
        none: t.none + one_of(x.outcome, kinds::NO_RULE),
        evictions: t.evictions + one_of(x.outcome, kinds::OVER_ENTRY),
    }
}

// Whether no total is above the limit.
#[tactic(auto, unfolding(crate::specs::Sums::totals_fit))]
pub fn totals_fit(t: Totals) -> bool
    ensures { result ≡ totals_fit (as_totals t) }
{
    t.packets <= MOST_TOTAL
        && t.hits <= MOST_TOTAL
        && t.misses <= MOST_TOTAL
        && t.none <= MOST_TOTAL
        && t.evictions <= MOST_TOTAL
}
