// Messages that arrive at an end: whether the bytes are those of one.
ghost use Rattle.std.specs.Prelude.{◌≡◌, ℕ, ◌<◌, List, length, Option};
ghost use Rattle.ternary.specs.Sizes.{key_size};
ghost use Rattle.records.specs.Layout.{write_size, report_size, is_write, is_report};
ghost use Rattle.checks.specs.Flaws.{write_flaw, report_flaw};
ghost use Rattle.checks.specs.Refusals.{verdict_of};
ghost use Rattle.checks.specs.Messages.{message_refusal};
ghost use Rattle.checks.specs.declared.flaw.Flaw.{Flaw as FlawOf};

use crate::flaw::{Flaw, report_flaw, write_flaw};
use crate::refusal::Refusal;
use records::layout;

// A kind of message: its size, its first byte, and what is wrong with one. Beside `Record`, which has a largest number and no first byte: in one
// trait each would leave a constant unused.
pub trait Message {
    ghost SIZE: { ℕ };

    ghost KIND: { ℕ };

    ghost flaw_of: { List ℕ → Option FlawOf };

    const SIZE: usize;

    const KIND: u8;

    fn flaw(bytes: &[u8]) -> Option<Flaw>
        requires { length bytes.now ≡ SIZE }
        ensures { result ≡ flaw_of bytes.now };

    ghost some_bytes: { 0 < SIZE };
}

// The keeper's write, as the table receives it.
pub struct WriteMessage;

impl Message for WriteMessage {
    ghost use Rattle.std.proofs.Common.{lit<};

    ghost SIZE = { write_size key_size };

    ghost KIND = { is_write };

    ghost flaw_of = { write_flaw key_size };

    ghost some_bytes = { lit< tt };

    const SIZE: usize = layout::WRITE_SIZE;

    const KIND: u8 = layout::IS_WRITE;

    fn flaw(bytes: &[u8]) -> Option<Flaw> {
        write_flaw(bytes)
    }
}

// The table's report, as the keeper receives it.
pub struct ReportMessage;

impl Message for ReportMessage {
    ghost use Rattle.std.proofs.Common.{lit<};

    ghost SIZE = { report_size };

    ghost KIND = { is_report };

    ghost flaw_of = { report_flaw };

    ghost some_bytes = { lit< tt };

    const SIZE: usize = layout::REPORT_SIZE;

    const KIND: u8 = layout::IS_REPORT;

    fn flaw(bytes: &[u8]) -> Option<Flaw> {
        report_flaw(bytes)
    }
}

// Whether the bytes are those of such a message: refusals 1, 8 and 3.
pub fn check_message<M: Message>(message: &[u8]) -> Result<(), Refusal>
    ensures { result ≡ verdict_of (message_refusal M.SIZE M.KIND M.flaw_of message.now) }
{
    if message.len() != M::SIZE {
        return Err(Refusal::Ragged);
    }
    if message[0] != M::KIND {
        return Err(Refusal::WrongKind);
    }
    if M::flaw(message).is_some() {
        return Err(Refusal::BadRecord { place: 0 });
    }
    Ok(())
}
