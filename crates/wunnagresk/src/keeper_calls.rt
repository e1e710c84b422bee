// The keeper's calls for C.
ghost use Rattle.wunnagresk.specs.KeeperCalls.{MissCall, ReportCall, OpenCall};

use c_answers::structs::{WgCount, WgDone, WgOutcome};

// A miss arrives; where a write is given it goes to the start of `out`.
pub fn wg_miss(policy: &[u8], key: &[u8], keeper: &mut [u8], out: &mut [u8]) -> WgOutcome
    ensures { MissCall policy.now key.now keeper.old out.old result
        keeper.new out.new }
{
    miss::miss(policy, key, keeper, out).into()
}

// A report arrives.
pub fn wg_report(keeper: &mut [u8], message: &[u8]) -> WgDone
    ensures { ReportCall keeper.old message.now result keeper.new }
{
    keeper::report(keeper, message).into()
}

// Writes the numbers of the open slots to the start of `out`, two bytes each.
pub fn wg_open(keeper: &[u8], out: &mut [u8]) -> WgCount
    ensures { OpenCall keeper.now out.old result out.new }
{
    keeper::open_list(keeper, out).into()
}
