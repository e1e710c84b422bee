// The run for C.
ghost use Rattle.c_answers.specs.RunCalls.{RunCall};

use c_answers::structs::WgCount;
use totals::Totals;

// Runs a trace, and advances the totals in place; an outcome of 12 bytes for each packet goes to the start of `out`.
pub fn wg_run(
    policy: &[u8],
    trace: &[u8],
    table: &mut [u8],
    keeper: &mut [u8],
    out: &mut [u8],
    totals: &mut Totals,
) -> WgCount
    ensures { RunCall policy.now trace.now table.old keeper.old out.old
        totals.old result totals.new table.new keeper.new out.new }
{
    let ran = run::run(policy, trace, table, keeper, out, *totals);
    *totals = ran.totals;
    ran.answer.into()
}
