// The packets of a run, one after another.
ghost use Rattle.std.specs.Prelude.{◌+◌, ◌<◌};
ghost use Rattle.ternary.specs.Sizes.{key_size};
ghost use Rattle.records.specs.Layout.{most_packets};
ghost use Rattle.records.specs.Traces.{packet_count, key_in, keys};
ghost use Rattle.totals.specs.Sums.{as_totals, most_total, AtMost};
ghost use Rattle.run.specs.Steps.{RunFits, Stepped, RanOver};

use records::layout;
use totals::Totals;

// One step of a run: its i-th packet, whose outcome goes to its place in `out`; and the totals after it.
fn step(
    policy: &[u8],
    trace: &[u8],
    i: usize,
    table: &mut [u8],
    keeper: &mut [u8],
    out: &mut [u8],
    totals: Totals,
) -> Totals
    requires { RunFits policy.now trace.now table.old keeper.old out.old × (i < packet_count key_size trace.now) ×
        AtMost (most_total + most_packets) (as_totals totals) }
    ensures { Stepped policy.now (key_in key_size trace.now i) i
        table.old keeper.old out.old (as_totals totals)
        table.new keeper.new out.new (as_totals result) }
{
    let key = records::trace::key_at(trace, i);
    let x = crate::packet::one_packet(policy, key, table, keeper);
    records::outcome::put_outcome(out, i, x);
    totals::advanced(totals, x)
}

// All packets of a run, in order; the totals after them.
pub(crate) fn all_packets(
    policy: &[u8],
    trace: &[u8],
    table: &mut [u8],
    keeper: &mut [u8],
    out: &mut [u8],
    totals: Totals,
) -> Totals
    requires { RunFits policy.now trace.now table.old keeper.old out.old × AtMost most_total (as_totals totals) }
    ensures { RanOver policy.now (keys key_size trace.now)
        table.old keeper.old out.old (as_totals totals)
        table.new keeper.new out.new (as_totals result) }
{
    let mut sums = totals;
    for i in 0..trace.len() / layout::TRACE_SIZE {
        sums = step(policy, trace, i, table, keeper, out, sums);
    }
    sums
}
