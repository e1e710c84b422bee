// The calls about a policy for C.
ghost use Rattle.std.specs.Prelude.{◌≡◌};
ghost use Rattle.policy.specs.Answers.{check_answer};
ghost use Rattle.policy.specs.RecordAnswers.{record_answer};
ghost use Rattle.policy.specs.BestAnswers.{best_answer};
ghost use Rattle.show.specs.Answers.{show_answer};
ghost use Rattle.c_answers.specs.Answers.{count_for_c, best_for_c};
ghost use Rattle.c_answers.specs.Parts.{record_for_c, show_for_c};
ghost use Rattle.c_answers.specs.IsolateCalls.{IsolateCall};
ghost use Rattle.wunnagresk.specs.PolicyCalls.{CoverCall};

use c_answers::structs::{WgBestAnswer, WgCount, WgIsolated, WgPart, WgShown};

// Checks a policy, and counts its rules.
pub fn wg_check(policy: &[u8]) -> WgCount
    ensures { result ≡ count_for_c (check_answer policy.now) }
{
    policy::check(policy).into()
}

// The best rule of a key.
pub fn wg_best(policy: &[u8], key: &[u8]) -> WgBestAnswer
    ensures { result ≡ best_for_c (best_answer policy.now key.now) }
{
    policy::best(policy, key).into()
}

// Where the record of that number lies in the policy.
pub fn wg_rule(policy: &[u8], number: usize) -> WgPart
    ensures { result ≡ record_for_c (record_answer policy.now number) number }
{
    c_answers::part::record_for_c(policy, number)
}

// Writes the cover list of a rule to the start of `out`, two bytes a number.
pub fn wg_cover(policy: &[u8], number: usize, out: &mut [u8]) -> WgCount
    ensures { CoverCall policy.now number out.old result out.new }
{
    cover::cover(policy, number, out).into()
}

// Isolates the key's best rule, and writes its pattern to the start of `out`, value then mask.
pub fn wg_isolate(policy: &[u8], key: &[u8], number: usize, out: &mut [u8]) -> WgIsolated
    ensures { IsolateCall policy.now key.now number out.old result out.new }
{
    c_answers::isolated::isolate_with(policy, key, number, out)
}

// Which record decides for a key, and where it lies.
pub fn wg_show(policy: &[u8], key: &[u8], table: &[u8]) -> WgShown
    ensures { result ≡ show_for_c (show_answer policy.now key.now table.now) }
{
    show::show_answer(policy, key, table).into()
}
