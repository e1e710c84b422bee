// The lines that the program prints.
#![tactic(auto)]

pub mod put;

ghost use Rattle.std.specs.Prelude.{◌≡◌, length};
ghost use Rattle.records.specs.Layout.{outcome_size};
ghost use Rattle.records.specs.Outcomes.{decode_outcome};
ghost use Rattle.checks.specs.Refusals.{number_of, place_of};
ghost use Rattle.totals.specs.Sums.{as_totals};
ghost use Rattle.lines.specs.Printed.{outcome_line, totals_line, refusal_line};

use checks::refusal::Refusal;
use text::Line;
use totals::Totals;

// An outcome's line: outcome, action, rule, slot, evicted rule.
#[tactic(auto, using(std::proofs::Common::append_assoc, records::proofs::OutcomeLaws::told_number), unfolding(crate::specs::Printed::outcome_line))]
pub(crate) fn outcome_line(bytes: &[u8]) -> Line
    requires { length bytes.now ≡ outcome_size }
    ensures { result ≡ outcome_line (decode_outcome bytes.now) }
{
    let outcome = records::outcome::outcome_of(bytes);
    let mut line = Line::new();
    line.push_number(u64::from(outcome.outcome), b' ');
    line.push_number(u64::from(outcome.action), b' ');
    line.push_number_or_dash(outcome.rule, b' ');
    line.push_number_or_dash(outcome.slot, b' ');
    line.push_number_or_dash(outcome.evicted, b'\n');
    line
}

// The last line of a run: packets, hits, misses, no rule, evictions.
#[tactic(auto, using(std::proofs::Common::append_assoc), unfolding(crate::specs::Printed::totals_line))]
pub fn totals_line(totals: Totals) -> Line
    ensures { result ≡ totals_line (as_totals totals) }
{
    let mut line = Line::new();
    line.push_number(totals.packets, b' ');
    line.push_number(totals.hits, b' ');
    line.push_number(totals.misses, b' ');
    line.push_number(totals.none, b' ');
    line.push_number(totals.evictions, b'\n');
    line
}

// The one line of a refusal: `refused`, number, place. `Display` writes the same, but no contract of it says so, and `text_of_replay` needs it.
#[tactic(auto, using(std::proofs::Common::append_assoc), unfolding(crate::specs::Printed::refusal_line))]
pub fn refusal_line(refusal: Refusal) -> Line
    ensures { result ≡ refusal_line (number_of refusal) (place_of refusal) }
{
    let mut line = Line::new();
    line.push_text(b"refused ");
    line.push_number(u64::from(refusal.number()), b' ');
    // A cast: no u64::from takes a usize.
    line.push_number(refusal.place() as u64, b'\n');
    line
}
