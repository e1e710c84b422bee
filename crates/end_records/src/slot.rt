// Slots: the records of the table and of the keeper.
ghost use Rattle.std.specs.Prelude.{◌≡◌, ◌++◌, ◌<◌, length};
ghost use Rattle.ternary.specs.Sizes.{key_size};
ghost use Rattle.buffers.specs.BigEndian.{to_be};
ghost use Rattle.records.specs.Layout.{slot_size};
ghost use Rattle.end_records.specs.Slots.{decode_slot, encode_slot, slot_in, SlotPut};
ghost use Rattle.records.specs.SlotBuffers.{slot_count};
ghost use Rattle.end_records.specs.SlotStructs.{as_slot};

use crate::entry::{entry_bytes, tail_bytes};
use records::layout;
use records::row::pattern_at;
use ternary::Pattern;

// A slot of either end, all bytes of it.
#[derive(Clone, Copy)]
pub struct Slot {
    // 0 where the slot is empty, and no Option: such a slot may hold anything else, and `decode_slot` gives it back.
    pub sequence: u32,
    pub hits: u32,
    pub pattern: Pattern,
    pub action: u16,
    pub rule: u16,
    // 1 once settled. No bool: `decode_slot` gives back 2 to 255 too, which mean open.
    pub settled: u8,
    pub spare: u8,
}

// The slot that a record spells.
fn slot_of(t: &[u8]) -> Slot
    requires { length t.now ≡ slot_size key_size }
    ensures { as_slot result ≡ decode_slot key_size t.now }
{
    Slot {
        sequence: buffers::be32(t, layout::SLOT_SEQUENCE),
        hits: buffers::be32(t, layout::SLOT_HITS),
        pattern: pattern_at(t, layout::SLOT_VALUE),
        action: buffers::be16(t, layout::SLOT_ACTION),
        rule: buffers::be16(t, layout::SLOT_RULE),
        settled: t[layout::SLOT_SETTLED],
        spare: t[layout::SLOT_SPARE],
    }
}

// The i-th slot of a buffer.
pub fn slot_at(s: &[u8], i: usize) -> Slot
    requires { i < slot_count key_size s.now }
    ensures { as_slot result ≡ slot_in key_size s.now i }
{
    let at = layout::SLOT_SIZE * i;
    slot_of(&s[at..at + layout::SLOT_SIZE])
}

// The eight bytes of two numbers, one by one: `concat` of their arrays needs a heap, and calls of `put_be16` and its like are no plainer.
fn head_bytes(sequence: u32, hits: u32) -> [u8; layout::SLOT_VALUE]
    ensures { result ≡ to_be 4 sequence ++ to_be 4 hits }
{
    let sequence = sequence.to_be_bytes();
    let hits = hits.to_be_bytes();
    [
        sequence[0],
        sequence[1],
        sequence[2],
        sequence[3],
        hits[0],
        hits[1],
        hits[2],
        hits[3],
    ]
}

// The bytes of a slot.
fn slot_bytes(x: Slot) -> [u8; layout::SLOT_SIZE]
    ensures { result ≡ encode_slot (as_slot x) }
{
    let head = head_bytes(x.sequence, x.hits);
    let tail = tail_bytes(x.action, x.rule, x.settled, x.spare);
    entry_bytes(head, x.pattern, tail)
}

// Writes the i-th slot of a buffer; every other byte stays.
pub fn put_slot(s: &mut [u8], i: usize, x: Slot)
    requires { i < slot_count key_size s.old }
    ensures { SlotPut key_size s.old i (as_slot x) s.new }
{
    let b = slot_bytes(x);
    buffers::put_bytes(s, layout::SLOT_SIZE * i, &b);
}
