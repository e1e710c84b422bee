// How a slot and a write are laid out alike: eight bytes, the two rows of a pattern, two numbers of two bytes, and two bytes.
ghost use Rattle.std.specs.Prelude.{◌≡◌, [], ◌∷◌, ◌++◌, ◌+◌, ◌≤◌, length};
ghost use Rattle.ternary.specs.Sizes.{key_size};
ghost use Rattle.buffers.specs.BigEndian.{to_be};
ghost use Rattle.buffers.specs.Parts.{splice};
ghost use Rattle.records.specs.Layout.{slot_size};

use records::layout;
use ternary::Pattern;

// What follows the rows, byte by byte: `concat` of the numbers' arrays needs a heap, and calls of `put_be16` and its like are no plainer.
pub(crate) fn tail_bytes(first: u16, second: u16, third: u8, last: u8) -> [u8; layout::TAIL_SIZE]
    ensures { result ≡ to_be 2 first ++ (to_be 2 second ++ (third ∷ last ∷ [])) }
{
    let first = first.to_be_bytes();
    let second = second.to_be_bytes();
    [first[0], first[1], second[0], second[1], third, last]
}

// The record with a part of it replaced.
fn with_part(mut b: [u8; layout::SLOT_SIZE], at: usize, part: &[u8]) -> [u8; layout::SLOT_SIZE]
    requires { at + length part.now ≤ slot_size key_size }
    ensures { result ≡ splice at part.now b }
{
    buffers::put_bytes(&mut b, at, part);
    b
}

// The whole record.
pub(crate) fn entry_bytes(
    head: [u8; layout::SLOT_VALUE],
    pattern: Pattern,
    tail: [u8; layout::TAIL_SIZE],
) -> [u8; layout::SLOT_SIZE]
    ensures { result ≡ head ++ (pattern.value ++ (pattern.mask ++ tail)) }
{
    let b = with_part([0; layout::SLOT_SIZE], 0, &head);
    let b = with_part(b, layout::SLOT_VALUE, &pattern.value);
    let b = with_part(b, layout::SLOT_MASK, &pattern.mask);
    with_part(b, layout::SLOT_ACTION, &tail)
}
