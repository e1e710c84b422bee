// Fields of a slot, read where they lie. One function for both would take a place in the slot, and say no plainer which number it gives.
ghost use Rattle.std.specs.Prelude.{◌≡◌, ◌<◌};
ghost use Rattle.ends.specs.Records.{slot_at};
ghost use Rattle.ternary.specs.Sizes.{key_size};
ghost use Rattle.end_records.specs.Slots.{slots};
ghost use Rattle.records.specs.SlotBuffers.{slot_count};

use records::layout;

// The sequence of the i-th slot.
pub fn sequence_at(s: &[u8], i: usize) -> u32
    requires { i < slot_count key_size s.now }
    ensures { result ≡ (slot_at (slots key_size s.now) i).sequence }
{
    buffers::be32(s, layout::SLOT_SIZE * i + layout::SLOT_SEQUENCE)
}

// The hits of the i-th slot.
pub fn hits_at(s: &[u8], i: usize) -> u32
    requires { i < slot_count key_size s.now }
    ensures { result ≡ (slot_at (slots key_size s.now) i).hits }
{
    buffers::be32(s, layout::SLOT_SIZE * i + layout::SLOT_HITS)
}
