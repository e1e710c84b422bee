// The calls about a policy, exported.
ghost use Rattle.std.specs.Prelude.{◌≡◌};
ghost use Rattle.policy.specs.Answers.{check_answer};
ghost use Rattle.policy.specs.RecordAnswers.{record_answer};
ghost use Rattle.policy.specs.BestAnswers.{best_answer};
ghost use Rattle.show.specs.Answers.{show_answer};
ghost use Rattle.c_answers.specs.Answers.{count_for_c, best_for_c};
ghost use Rattle.c_answers.specs.Parts.{record_for_c, show_for_c};
ghost use Rattle.c_answers.specs.IsolateCalls.{IsolateCall};
ghost use Rattle.wunnagresk.specs.PolicyCalls.{CoverCall};

use c_answers::structs::{WgBestAnswer, WgCount, WgIsolated, WgPart, WgShown};

// Checks a policy, and counts its rules.
#[unsafe(no_mangle)]
pub extern "C" fn wg_check(policy: &[u8]) -> WgCount
    ensures { result ≡ count_for_c (check_answer policy.now) }
{
    wunnagresk::policy_calls::wg_check(policy)
}

// The best rule of a key.
#[unsafe(no_mangle)]
pub extern "C" fn wg_best(policy: &[u8], key: &[u8]) -> WgBestAnswer
    ensures { result ≡ best_for_c (best_answer policy.now key.now) }
{
    wunnagresk::policy_calls::wg_best(policy, key)
}

// Where the record of that number lies in the policy.
#[unsafe(no_mangle)]
pub extern "C" fn wg_rule(policy: &[u8], number: usize) -> WgPart
    ensures { result ≡ record_for_c (record_answer policy.now number) number }
{
    wunnagresk::policy_calls::wg_rule(policy, number)
}

// Writes the cover list of a rule to the start of `out`, two bytes a number.
#[unsafe(no_mangle)]
pub extern "C" fn wg_cover(policy: &[u8], number: usize, out: &mut [u8]) -> WgCount
    ensures { CoverCall policy.now number out.old result out.new }
{
    wunnagresk::policy_calls::wg_cover(policy, number, out)
}

// Isolates the key's best rule, and writes its pattern to the start of `out`, value then mask.
#[unsafe(no_mangle)]
pub extern "C" fn wg_isolate(policy: &[u8], key: &[u8], number: usize, out: &mut [u8]) -> WgIsolated
    ensures { IsolateCall policy.now key.now number out.old result out.new }
{
    wunnagresk::policy_calls::wg_isolate(policy, key, number, out)
}

// Which record decides for a key, and where it lies.
#[unsafe(no_mangle)]
pub extern "C" fn wg_show(policy: &[u8], key: &[u8], table: &[u8]) -> WgShown
    ensures { result ≡ show_for_c (show_answer policy.now key.now table.now) }
{
    wunnagresk::policy_calls::wg_show(policy, key, table)
}
