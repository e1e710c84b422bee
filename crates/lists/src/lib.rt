// Lists of numbers of rules or of slots, and their bytes in an output.
#![tactic(auto)]

pub mod list_of;

ghost use Rattle.std.specs.Prelude.{◌≡◌, ◌*◌, ◌≤◌, length};
ghost use Rattle.buffers.specs.Parts.{splice};
ghost use Rattle.lists.specs.Written.{number_bytes};
ghost use Rattle.lists.specs.Answers.{Answered};

use crate::list_of::ListOf;
use checks::refusal::Refusal;
use records::layout::MOST_RULES;

// A list of numbers of rules or of slots.
pub type Numbers = ListOf<u16, MOST_RULES>;

// Writes the list to the start of `out`, two bytes a number; every other byte stays.
fn put_numbers(list: &[u16], out: &mut [u8])
    requires { 2 * length list.now ≤ length out.old }
    ensures { out.new ≡ splice 0 (number_bytes list.now) out.old }
{
    for (i, number) in list.iter().enumerate() {
        buffers::put_be16(out, 2 * i, *number);
    }
}

// Writes the list to the start of `out`: refusal 5 where `out` is shorter than two bytes a number; a refusal writes nothing.
pub fn list_answer(list: &[u16], out: &mut [u8]) -> Result<usize, Refusal>
    ensures { Answered list.now out.old result out.new }
{
    if out.len() < 2 * list.len() {
        return Err(Refusal::ShortOutput);
    }
    put_numbers(list, out);
    Ok(list.len())
}
