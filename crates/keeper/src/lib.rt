// The keeper receives a report, and lists its open slots.
#![tactic(auto)]

pub mod open_slots;
pub mod reports;

ghost use Rattle.keeper.specs.Reports.{Reported};
ghost use Rattle.keeper.specs.Opens.{Opened};

use checks::buffer::slot_count;
use checks::refusal::Refusal;

// A report arrives: refusal 4 of the keeper, then 1, 8, 3, 9, 10 and 11 of the message; a refusal changes nothing.
pub fn report(keeper: &mut [u8], message: &[u8]) -> Result<(), Refusal>
    ensures { Reported keeper.old message.now result keeper.new }
{
    reports::check_report(keeper, message)?;
    slots::settle::take_report(keeper, end_records::report::report_of(message));
    Ok(())
}

// Writes the numbers of the open slots to the start of `out`, two bytes each, rising, and gives how many they are: refusal 4 of the keeper, then 5;
// a refusal writes nothing.
pub fn open_list(keeper: &[u8], out: &mut [u8]) -> Result<usize, Refusal>
    ensures { Opened keeper.now out.old result out.new }
{
    slot_count(keeper)?;
    let list = open_slots::open_slots(keeper);
    lists::list_answer(list.as_slice(), out)
}
