// A trace run.
#![tactic(auto)]

pub mod packet;
pub mod refusals;
pub mod send;
pub mod steps;

ghost use Rattle.totals.specs.Sums.{as_totals};
ghost use Rattle.run.specs.Runs.{RunIs};

use checks::refusal::Refusal;
use records::layout;
use totals::Totals;

// What a run answers, and the totals after it, by value; a refusal leaves them as they were.
#[derive(Clone, Copy, Debug, PartialEq, Eq)]
pub struct Ran {
    pub answer: Result<usize, Refusal>,
    pub totals: Totals,
}

// Runs a trace: each packet in order, its outcome to the output, its totals added; the answer is how many packets there were. A refusal changes
// nothing: 1, 2 and 3 of the policy, 1, 2 and 3 of the trace, 4 of the table, 4 of the keeper, 12, 13, 5.
pub fn run(
    policy: &[u8],
    trace: &[u8],
    table: &mut [u8],
    keeper: &mut [u8],
    out: &mut [u8],
    totals: Totals,
) -> Ran
    ensures { RunIs policy.now trace.now table.old keeper.old out.old
        (as_totals totals) result table.new keeper.new out.new }
{
    match crate::refusals::check_run(policy, trace, table, keeper, out.len(), totals) {
        Err(refusal) => Ran {
            answer: Err(refusal),
            totals,
        },
        Ok(()) => Ran {
            totals: crate::steps::all_packets(policy, trace, table, keeper, out, totals),
            answer: Ok(trace.len() / layout::TRACE_SIZE),
        },
    }
}
