// One hit more in a slot.
ghost use Rattle.std.specs.Prelude.{◌≡◌, ◌<◌};
ghost use Rattle.ends.specs.Ends.{counted as one_more};
ghost use Rattle.ternary.specs.Sizes.{key_size};
ghost use Rattle.records.specs.SlotBuffers.{slot_count};
ghost use Rattle.end_records.specs.SlotStructs.{as_slot};
ghost use Rattle.slots.specs.Hits.{Counted};

use end_records::slot::Slot;
use records::layout;

// The slot with one hit more; hits at the top stay there.
fn counted(x: Slot) -> Slot
    ensures { as_slot result ≡ one_more (as_slot x) }
{
    Slot {
        hits: x.hits.saturating_add(1),
        ..x
    }
}

// Counts a hit in the i-th slot of a table, and gives the slot as it then is. Its hits alone are written.
pub fn count_hit(table: &mut [u8], i: usize) -> Slot
    requires { i < slot_count key_size table.old }
    ensures { Counted table.old i (as_slot result) table.new }
{
    let old = end_records::slot::slot_at(table, i);
    let new = counted(old);
    buffers::put_be32(table, layout::SLOT_SIZE * i + layout::SLOT_HITS, new.hits);
    new
}
