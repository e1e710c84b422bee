// A decision on a miss is carried out: its entry placed, its write given.
ghost use Rattle.std.specs.Prelude.{◌≡◌, true, ◌<◌};
ghost use Rattle.std.specs.Option.{ForSome};
ghost use Rattle.ternary.specs.Sizes.{key_size};
ghost use Rattle.records.specs.SlotBuffers.{slot_count};
ghost use Rattle.end_records.specs.MessageStructs.{as_write};
ghost use Rattle.records.specs.Outcomes.{gives_write};
ghost use Rattle.miss.specs.Carry.{NewEntryPut, CarriedOut};

use crate::decision::Decision;
use checks::refusal::Refusal;
use end_records::write::Write;
use records::layout;
use records::outcome::Outcome;

// Puts the write's entry into its slot, unless the outcome is that the write is given again.
pub fn put_new_entry(keeper: &mut [u8], outcome: u8, x: Write)
    requires { (x.slot < slot_count key_size keeper.old) × (gives_write outcome ≡ true) }
    ensures { NewEntryPut outcome (as_write x) keeper.old keeper.new }
{
    if outcome != records::kinds::AGAIN {
        slots::entry::put_entry(keeper, x);
    }
}

// Carries a decision out: refusal 5 where a write is given; a new entry goes into its slot, and the write into `out`.
pub(crate) fn carry_out(d: Decision, keeper: &mut [u8], out: &mut [u8]) -> Result<Outcome, Refusal>
    requires inside { ForSome d.write (λ w. w.slot < slot_count key_size keeper.old) }
    requires told { ForSome d.write (λ w. gives_write d.outcome.outcome ≡ true) }
    ensures { CarriedOut d keeper.old out.old result keeper.new out.new }
{
    let Decision { outcome, write } = d;
    let Some(write) = write else {
        return Ok(outcome);
    };
    if out.len() < layout::WRITE_SIZE {
        return Err(Refusal::ShortOutput);
    }
    put_new_entry(keeper, outcome.outcome, write);
    end_records::write::put_write(out, write);
    Ok(outcome)
}
