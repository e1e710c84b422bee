// What a write and a report begin with alike: kind, zero, slot, sequence.
ghost use Rattle.std.specs.Prelude.{◌≡◌, [], ◌∷◌, ◌++◌};
ghost use Rattle.buffers.specs.BigEndian.{to_be};

use records::layout;

// Byte by byte: `concat` of the numbers' arrays needs a heap, and calls of `put_be16` and its like are no plainer.
pub(crate) fn head_bytes(kind: u8, slot: u16, sequence: u32) -> [u8; layout::WRITE_VALUE]
    ensures { result ≡ (kind ∷ 0 ∷ []) ++ (to_be 2 slot ++ to_be 4 sequence) }
{
    let slot = slot.to_be_bytes();
    let sequence = sequence.to_be_bytes();
    [
        kind,
        0,
        slot[0],
        slot[1],
        sequence[0],
        sequence[1],
        sequence[2],
        sequence[3],
    ]
}
