// The table receives a write of the keeper.
ghost use Rattle.std.specs.Prelude.{◌≡◌};
ghost use Rattle.checks.specs.Refusals.{verdict_of};
ghost use Rattle.table.specs.Writes.{write_message_refusal, write_call_refusal};

use checks::buffer::slot_count;
use checks::message::WriteMessage;
use checks::refusal::Refusal;
use records::layout;

// Whether a write is one to a table of `count` slots: refusals 1, 8, 3, 9 and 10. It changes nothing.
fn check_message(message: &[u8], count: usize) -> Result<(), Refusal>
    ensures { result ≡ verdict_of (write_message_refusal message.now count) }
{
    checks::message::check_message::<WriteMessage>(message)?;
    if count <= usize::from(buffers::be16(message, layout::WRITE_SLOT)) {
        return Err(Refusal::NoSuchSlot);
    }
    if buffers::be32(message, layout::WRITE_SEQUENCE) == 0 {
        return Err(Refusal::SequenceZero);
    }
    Ok(())
}

// Whether a write is taken, with an output of `out_len` bytes: refusal 4 of the table, those of the message, then 5. It changes nothing.
// The length alone: an output is lent to write only once nothing is refused.
pub(crate) fn check_write(table: &[u8], message: &[u8], out_len: usize) -> Result<(), Refusal>
    ensures { result ≡ verdict_of (write_call_refusal table.now message.now out_len) }
{
    let count = slot_count(table)?;
    check_message(message, count)?;
    if out_len < layout::REPORT_SIZE {
        return Err(Refusal::ShortOutput);
    }
    Ok(())
}
