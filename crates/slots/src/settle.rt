// A report that is taken settles its slot at the keeper.
ghost use Rattle.std.specs.Prelude.{◌≡◌, ◌<◌};
ghost use Rattle.ends.specs.Ends.{confirmed};
ghost use Rattle.ternary.specs.Sizes.{key_size};
ghost use Rattle.records.specs.SlotBuffers.{slot_count};
ghost use Rattle.end_records.specs.SlotStructs.{as_slot};
ghost use Rattle.end_records.specs.MessageStructs.{as_report};
ghost use Rattle.slots.specs.Settle.{ReportTaken};

use end_records::report::Report;
use end_records::slot::Slot;

// The slot once its hits are confirmed: settled, with the larger number of hits.
fn confirmed_slot(old: Slot, hits: u32) -> Slot
    ensures { as_slot result ≡ confirmed (as_slot old) hits }
{
    Slot {
        hits: old.hits.max(hits),
        settled: 1,
        ..old
    }
}

// Takes a report: it settles the slot where it has the slot's sequence, and changes nothing where its sequence is older.
pub fn take_report(keeper: &mut [u8], x: Report)
    requires { x.slot < slot_count key_size keeper.old }
    ensures { ReportTaken keeper.old (as_report x) keeper.new }
{
    let i = usize::from(x.slot);
    let old = end_records::slot::slot_at(keeper, i);
    if x.sequence == old.sequence {
        end_records::slot::put_slot(keeper, i, confirmed_slot(old, x.hits));
    }
}
