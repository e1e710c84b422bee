// The run, exported.
ghost use Rattle.c_answers.specs.RunCalls.{RunCall};

use c_answers::structs::WgCount;
use totals::Totals;

// Runs a trace, and advances the totals in place; an outcome of 12 bytes for each packet goes to the start of `out`.
#[unsafe(no_mangle)]
pub extern "C" fn wg_run(
    policy: &[u8],
    trace: &[u8],
    table: &mut [u8],
    keeper: &mut [u8],
    out: &mut [u8],
    totals: &mut Totals,
) -> WgCount
    ensures { RunCall policy.now trace.now table.old keeper.old out.old
        totals.old result totals.new table.new keeper.new out.new }
{
    wunnagresk::run_calls::wg_run(policy, trace, table, keeper, out, totals)
}
