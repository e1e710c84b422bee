// The dependents of a rule, which are its cover list.
#![tactic(auto)]

pub mod dependents;
pub mod precedence;

ghost use Rattle.cover.specs.Answers.{Covered};

use checks::refusal::Refusal;

// Writes the cover list of a rule to the start of `out`, two bytes a number, in order of precedence, and gives how many they are; a refusal writes
// nothing.
pub fn cover(policy: &[u8], number: usize, out: &mut [u8]) -> Result<usize, Refusal>
    ensures { Covered policy.now number out.old result out.new }
{
    let count = policy::check(policy)?;
    if number >= count {
        return Err(Refusal::NoSuchRule);
    }
    let list = dependents::dependents_of(policy, number);
    lists::list_answer(list.as_slice(), out)
}
