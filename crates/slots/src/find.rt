// The pattern of a slot, matched where it lies, and the first slot whose pattern takes a key.
ghost use Rattle.std.specs.Prelude.{◌≡◌, ◌<◌, length};
ghost use Rattle.ends.specs.Ends.{holds, first_for};
ghost use Rattle.ternary.specs.Sizes.{key_size, positions};
ghost use Rattle.end_records.specs.Slots.{slots};
ghost use Rattle.records.specs.SlotBuffers.{slot_count};

use end_records::fields;
use records::layout;
use records::row::rows_at;

// Whether the i-th slot of an end is not empty and takes the key.
fn slot_holds(s: &[u8], i: usize, key: &[u8]) -> bool
    requires { (i < slot_count key_size s.now) × (length key.now ≡ key_size) }
    ensures { result ≡ holds positions (slots key_size s.now) key.now i }
{
    if fields::sequence_at(s, i) == 0 {
        return false;
    }
    let (value, mask) = rows_at(s, layout::SLOT_SIZE * i + layout::SLOT_VALUE);
    ternary::matches_row(value, mask, key)
}

// The lowest slot of an end that is not empty and takes the key.
pub fn first_slot_for(s: &[u8], key: &[u8]) -> Option<usize>
    requires { length key.now ≡ key_size }
    ensures { result ≡ first_for positions (slots key_size s.now) key.now }
{
    (0..s.len() / layout::SLOT_SIZE).find(|&i| slot_holds(s, i, key))
}
