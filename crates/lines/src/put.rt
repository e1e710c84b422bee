// Lines in a lent output, one after another.
ghost use Rattle.std.specs.Prelude.{◌≡◌, ◌+◌, ◌*◌, ◌≤◌, length};
ghost use Rattle.buffers.specs.Parts.{splice};
ghost use Rattle.records.specs.Layout.{outcome_size, most_packets};
ghost use Rattle.text.specs.Line.{line_size};
ghost use Rattle.lines.specs.Listing.{lines_in, TextPut};

use records::layout;
use text::Line;

// Writes a line from `at` on, and gives where it ends; every other byte stays.
pub fn put_line(line: Line, out: &mut [u8], at: usize) -> usize
    requires { at + line_size ≤ length out.old }
    ensures output { out.new ≡ splice at line out.old }
    ensures end { result ≡ at + length line }
    ensures short { result ≤ at + line_size }
{
    let text = line.as_bytes();
    buffers::put_bytes(out, at, text);
    at + text.len()
}

// Writes the lines of the first n records of a run's output to the start of `out`, and gives where they end; every other byte stays.
// A count beside the records, since a run's output may be longer than its packets: `put_outcomes` promises the first n.
pub fn put_outcomes(records: &[u8], n: usize, out: &mut [u8]) -> usize
    requires { (n ≤ most_packets) × (outcome_size * n ≤ length records.now) × (line_size * n ≤ length out.old) }
    ensures lines { TextPut (lines_in n records.now) out.old result out.new }
    ensures short { result ≤ line_size * n }
{
    let mut at = 0;
    for outcome in records[..layout::OUTCOME_SIZE * n].chunks_exact(layout::OUTCOME_SIZE) {
        at = put_line(crate::outcome_line(outcome), out, at);
    }
    at
}
