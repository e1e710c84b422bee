// A write is sent: delivered at once, and so is its report.
ghost use Rattle.std.specs.Prelude.{◌≡◌};
ghost use Rattle.end_records.specs.MessageStructs.{as_write};
ghost use Rattle.run.specs.Send.{ends_in, WholeEnds, sent_ends};

use end_records::write::Write;
use records::layout;

// A write goes to the table, and its report to the keeper. What an end refuses changes nothing there.
pub(crate) fn send_write(w: Write, table: &mut [u8], keeper: &mut [u8])
    requires { WholeEnds table.old keeper.old }
    ensures { ends_in table.new keeper.new ≡ sent_ends table.old keeper.old (as_write w) }
{
    let message = end_records::write::write_bytes(w);
    let mut back = [0; layout::REPORT_SIZE];
    if table::write(table, &message, &mut back).is_ok() {
        let _ = keeper::report(keeper, &back);
    }
}
