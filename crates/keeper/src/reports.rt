// Reports that arrive at the keeper: how they are refused.
ghost use Rattle.std.specs.Prelude.{◌≡◌};
ghost use Rattle.ends.specs.Ends.{report_refusal};
ghost use Rattle.ternary.specs.Sizes.{key_size};
ghost use Rattle.records.specs.SlotBuffers.{slot_count};
ghost use Rattle.checks.specs.Refusals.{verdict_of};
ghost use Rattle.end_records.specs.Slots.{slots};
ghost use Rattle.end_records.specs.MessageStructs.{as_report};
ghost use Rattle.keeper.specs.Reports.{numbered, report_answer};

use checks::buffer::slot_count;
use checks::message::{ReportMessage, check_message};
use checks::refusal::Refusal;
use end_records::report::Report;

// Whether the report is one of a slot of this keeper, which has `count` slots, and of an entry that it wrote: refusals 9, 10 and 11.
// The count comes beside the keeper: the caller has it from `slot_count`, and to divide again is no plainer.
fn check_slot(keeper: &[u8], count: usize, x: Report) -> Result<(), Refusal>
    requires { count ≡ slot_count key_size keeper.now }
    ensures { result ≡ verdict_of (numbered (report_refusal (slots key_size keeper.now) (as_report x))) }
{
    let i = usize::from(x.slot);
    if count <= i {
        return Err(Refusal::NoSuchSlot);
    }
    if x.sequence == 0 {
        return Err(Refusal::SequenceZero);
    }
    if end_records::fields::sequence_at(keeper, i) < x.sequence {
        return Err(Refusal::ReportAhead);
    }
    Ok(())
}

// Whether a report is taken: refusal 4 of the keeper, then those of the message.
pub(crate) fn check_report(keeper: &[u8], message: &[u8]) -> Result<(), Refusal>
    ensures { result ≡ report_answer keeper.now message.now }
{
    let count = slot_count(keeper)?;
    check_message::<ReportMessage>(message)?;
    check_slot(keeper, count, end_records::report::report_of(message))
}
