// An entry goes into its slot, at either end.
ghost use Rattle.std.specs.Prelude.{◌≡◌, ◌<◌};
ghost use Rattle.ends.specs.Records.{entry_in, written as newly_written};
ghost use Rattle.ternary.specs.Sizes.{key_size};
ghost use Rattle.records.specs.SlotBuffers.{slot_count};
ghost use Rattle.end_records.specs.SlotStructs.{as_slot};
ghost use Rattle.end_records.specs.MessageStructs.{as_write};
ghost use Rattle.slots.specs.Puts.{EntryPut};
ghost use Rattle.slots.specs.Stores.{Stored};

use end_records::slot::Slot;
use end_records::write::Write;

// The slot just after a write's entry went into it: no hits, not settled.
fn written(w: Write) -> Slot
    ensures { as_slot result ≡ newly_written (entry_in (as_write w)) }
{
    let Write {
        sequence,
        pattern,
        action,
        rule,
        ..
    } = w;
    Slot {
        sequence,
        hits: 0,
        pattern,
        action,
        rule,
        settled: 0,
        spare: 0,
    }
}

// Puts a write's entry into its slot of an end, and gives the slot as it then is.
pub fn put_entry(end: &mut [u8], w: Write) -> Slot
    requires { (as_write w).slot < slot_count key_size end.old }
    ensures { EntryPut end.old (as_write w) (as_slot result) end.new }
{
    let new = written(w);
    end_records::slot::put_slot(end, usize::from(w.slot), new);
    new
}

// Stores a write in its slot of a table if its sequence is greater than the slot's, and gives the slot as it then is.
pub fn store_newer(table: &mut [u8], w: Write) -> Slot
    requires { (as_write w).slot < slot_count key_size table.old }
    ensures { Stored table.old (as_write w) (as_slot result) table.new }
{
    let old = end_records::slot::slot_at(table, usize::from(w.slot));
    if w.sequence <= old.sequence {
        return old;
    }
    put_entry(table, w)
}
