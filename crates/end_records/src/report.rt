// Reports: what the table sends to the keeper.
ghost use Rattle.std.specs.Prelude.{◌≡◌, ◌≤◌, length};
ghost use Rattle.buffers.specs.Parts.{splice};
ghost use Rattle.records.specs.Layout.{report_size};
ghost use Rattle.end_records.specs.Reports.{decode_report, encode_report};
ghost use Rattle.end_records.specs.MessageStructs.{as_report};

use crate::head::head_bytes;
use records::layout;

#[derive(Clone, Copy)]
pub struct Report {
    pub slot: u16,
    pub sequence: u32,
    pub hits: u32,
}

// The report that a record spells, whatever its kind and its zero byte are.
pub fn report_of(t: &[u8]) -> Report
    requires { length t.now ≡ report_size }
    ensures { as_report result ≡ decode_report t.now }
{
    Report {
        slot: buffers::be16(t, layout::REPORT_SLOT),
        sequence: buffers::be32(t, layout::REPORT_SEQUENCE),
        hits: buffers::be32(t, layout::REPORT_HITS),
    }
}

// Writes a report at the start of `out`; the bytes past it stay.
pub fn put_report(out: &mut [u8], x: Report)
    requires { report_size ≤ length out.old }
    ensures { out.new ≡ splice 0 (encode_report (as_report x)) out.old }
{
    let head = head_bytes(layout::IS_REPORT, x.slot, x.sequence);
    let hits = x.hits.to_be_bytes();
    buffers::put_bytes(out, 0, &head);
    buffers::put_bytes(out, layout::REPORT_HITS, &hits);
}
