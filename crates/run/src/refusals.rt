// How a run is refused.
ghost use Rattle.std.specs.Prelude.{◌≡◌};
ghost use Rattle.checks.specs.Refusals.{answer_of, verdict_of};
ghost use Rattle.records.specs.Traces.{packet_count};
ghost use Rattle.ternary.specs.Sizes.{key_size};
ghost use Rattle.totals.specs.Sums.{as_totals};
ghost use Rattle.run.specs.Refusals.{trace_refusal, ends_refusal, run_refusal};

use checks::buffer::slot_count;
use checks::flawed::{Packet, record_count};
use checks::refusal::Refusal;
use records::layout;
use totals::Totals;

// How many packets a trace has: 1, 2 and 3, the last with the place of the first flawed record.
#[tactic(auto, unfolding(crate::specs::Refusals::trace_refusal))]
fn check_trace(trace: &[u8]) -> Result<usize, Refusal>
    ensures { result ≡ answer_of (trace_refusal trace.now) (packet_count key_size trace.now) }
{
    record_count::<Packet>(trace)
}

// Whether the two ends are refused: 4 of the table, 4 of the keeper, 12.
fn check_ends(table: &[u8], keeper: &[u8]) -> Result<(), Refusal>
    ensures { result ≡ verdict_of (ends_refusal table.now keeper.now) }
{
    slot_count(table)?;
    slot_count(keeper)?;
    if table.len() != keeper.len() {
        return Err(Refusal::LengthsDiffer);
    }
    Ok(())
}

// Whether a run is refused, with an output of `out_len` bytes: 1, 2 and 3 of the policy, those of the trace and of the two ends, 13, 5.
// The length alone: an output is lent to write only once nothing is refused.
pub(crate) fn check_run(
    policy: &[u8],
    trace: &[u8],
    table: &[u8],
    keeper: &[u8],
    out_len: usize,
    totals: Totals,
) -> Result<(), Refusal>
    ensures { result ≡ verdict_of (run_refusal policy.now trace.now table.now keeper.now
        out_len (as_totals totals)) }
{
    policy::check(policy)?;
    let packets = check_trace(trace)?;
    check_ends(table, keeper)?;
    if !totals::totals_fit(totals) {
        return Err(Refusal::TotalsFull);
    }
    if out_len < layout::OUTCOME_SIZE * packets {
        return Err(Refusal::ShortOutput);
    }
    Ok(())
}
