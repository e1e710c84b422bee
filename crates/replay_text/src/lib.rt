// What the program prints, written into a lent output, from the bytes of its three files.
#![tactic(auto)]

pub mod files;

ghost use Rattle.std.specs.Prelude.{◌≡◌, ◌*◌, ◌≤◌, length};
ghost use Rattle.records.specs.Layout.{outcome_size, most_packets, most_slots};
ghost use Rattle.totals.specs.Sums.{as_totals};
ghost use Rattle.lines.specs.Listing.{TextPut};
ghost use Rattle.replay_text.specs.Files.{most_trace_bytes};
ghost use Rattle.replay_text.specs.Text.{cleared_end, ran_text, packets_of, most_text, RanCleared, outcomes_from};
ghost use Rattle.replay_text.specs.Text.{call_refusal, text_for, text_of_replay};

use records::layout;
use run::Ran;
use text::LINE_SIZE;
use totals::Totals;

// The text of every packet and of the totals is at most so long.
pub const MOST_TEXT: usize = LINE_SIZE * (layout::MOST_PACKETS + 1);

// Writes what a run came to, whose output is `records`: its refusal's line, or a line for each packet and the totals.
fn put_ran(ran: Ran, records: &[u8], out: &mut [u8]) -> usize
    requires { (packets_of ran.answer ≤ most_packets) × (outcome_size * most_packets ≤ length records.now) × (most_text ≤ length out.old) }
    ensures { TextPut (ran_text ran.answer (as_totals ran.totals) records.now) out.old result out.new }
{
    match ran.answer {
        Err(refusal) => lines::put::put_line(lines::refusal_line(refusal), out, 0),
        Ok(count) => {
            let at = lines::put::put_outcomes(records, count, out);
            lines::put::put_line(lines::totals_line(ran.totals), out, at)
        }
    }
}

// An end with room for every slot, cleared.
fn cleared() -> [u8; layout::SLOT_SIZE * layout::MOST_SLOTS]
    ensures { result ≡ cleared_end most_slots }
{
    [0; layout::SLOT_SIZE * layout::MOST_SLOTS]
}

// Runs the trace from cleared ends of n slots; the outcomes go to `records`.
fn run_cleared(n: usize, policy: &[u8], trace: &[u8], records: &mut [u8]) -> Ran
    requires { (1 ≤ n) × (n ≤ most_slots) × (length trace.now ≤ most_trace_bytes) × (length records.old ≡ outcome_size * most_packets) }
    ensures { RanCleared n policy.now trace.now result records.new }
{
    let mut table = cleared();
    let mut keeper = cleared();
    let size = layout::SLOT_SIZE * n;
    run::run(
        policy,
        trace,
        &mut table[..size],
        &mut keeper[..size],
        records,
        Totals::default(),
    )
}

// Room for the outcomes of every trace.
fn outcome_room() -> [u8; layout::OUTCOME_SIZE * layout::MOST_PACKETS]
    ensures { outcome_size * most_packets ≡ length result }
{
    [0; layout::OUTCOME_SIZE * layout::MOST_PACKETS]
}

// Writes what such a run came to.
fn put_run(n: usize, policy: &[u8], trace: &[u8], out: &mut [u8]) -> usize
    requires { (1 ≤ n) × (n ≤ most_slots) × (length trace.now ≤ most_trace_bytes) × (most_text ≤ length out.old) }
    ensures { TextPut (text_for (call_refusal policy.now trace.now)
        (outcomes_from n policy.now trace.now)) out.old result out.new }
{
    let mut records = outcome_room();
    let ran = run_cleared(n, policy, trace, &mut records);
    put_ran(ran, &records, out)
}

// Writes what the program prints of these files to the start of `out`, and gives its length; every other byte stays.
pub fn text(slots: &[u8], policy: &[u8], trace: &[u8], out: &mut [u8]) -> usize
    requires { most_text ≤ length out.old }
    ensures { TextPut (text_of_replay slots.now policy.now trace.now) out.old result out.new }
{
    match crate::files::file_answer(slots, policy, trace) {
        Err(refusal) => lines::put::put_line(lines::refusal_line(refusal), out, 0),
        Ok(n) => put_run(n, policy, trace, out),
    }
}
