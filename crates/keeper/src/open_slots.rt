// The open slots of the keeper.
ghost use Rattle.std.specs.Prelude.{◌≡◌, ◌≤◌, ◌<◌};
ghost use Rattle.ends.specs.Records.{slot_at};
ghost use Rattle.ends.specs.Ends.{is_open, open_list};
ghost use Rattle.ternary.specs.Sizes.{key_size};
ghost use Rattle.records.specs.Layout.{most_slots};
ghost use Rattle.end_records.specs.Slots.{slots};
ghost use Rattle.records.specs.SlotBuffers.{slot_count};

use end_records::fields;
use lists::Numbers;
use records::layout;

// Whether the i-th slot is open: not empty, and not settled.
fn is_open(keeper: &[u8], i: usize) -> bool
    requires { i < slot_count key_size keeper.now }
    ensures { result ≡ is_open (slot_at (slots key_size keeper.now) i) }
{
    fields::sequence_at(keeper, i) != 0 && keeper[layout::SLOT_SIZE * i + layout::SLOT_SETTLED] != 1
}

// The numbers of the open slots, rising.
pub(crate) fn open_slots(keeper: &[u8]) -> Numbers
    requires { slot_count key_size keeper.now ≤ most_slots }
    ensures { result.items ≡ open_list (slots key_size keeper.now) }
{
    let mut list = Numbers::new();
    for i in 0..keeper.len() / layout::SLOT_SIZE {
        if is_open(keeper, i) {
            // A cast: no u16::from takes a usize.
            list.push(i as u16);
        }
    }
    list
}
