// Writes: what the keeper sends to the table.
ghost use Rattle.std.specs.Prelude.{◌≡◌, ◌≤◌, length};
ghost use Rattle.buffers.specs.Parts.{splice};
ghost use Rattle.ternary.specs.Sizes.{key_size};
ghost use Rattle.records.specs.Layout.{write_size};
ghost use Rattle.end_records.specs.Writes.{decode_write, encode_write};
ghost use Rattle.end_records.specs.MessageStructs.{as_write};

use crate::entry::{entry_bytes, tail_bytes};
use crate::head::head_bytes;
use records::layout;
use records::row::pattern_at;
use ternary::Pattern;

#[derive(Clone, Copy)]
pub struct Write {
    pub slot: u16,
    pub sequence: u32,
    pub pattern: Pattern,
    pub action: u16,
    pub rule: u16,
}

// The write that a record spells, whatever its kind and its zero bytes are.
pub fn write_of(t: &[u8]) -> Write
    requires { length t.now ≡ write_size key_size }
    ensures { as_write result ≡ decode_write key_size t.now }
{
    Write {
        slot: buffers::be16(t, layout::WRITE_SLOT),
        sequence: buffers::be32(t, layout::WRITE_SEQUENCE),
        pattern: pattern_at(t, layout::WRITE_VALUE),
        action: buffers::be16(t, layout::WRITE_ACTION),
        rule: buffers::be16(t, layout::WRITE_RULE),
    }
}

// The bytes of a write.
pub fn write_bytes(x: Write) -> [u8; layout::WRITE_SIZE]
    ensures { result ≡ encode_write (as_write x) }
{
    let head = head_bytes(layout::IS_WRITE, x.slot, x.sequence);
    let tail = tail_bytes(x.action, x.rule, 0, 0);
    entry_bytes(head, x.pattern, tail)
}

// Writes a write at the start of `out`; the bytes past it stay.
pub fn put_write(out: &mut [u8], x: Write)
    requires { write_size key_size ≤ length out.old }
    ensures { out.new ≡ splice 0 (encode_write (as_write x)) out.old }
{
    let b = write_bytes(x);
    buffers::put_bytes(out, 0, &b);
}
