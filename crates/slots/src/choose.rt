// What a miss asks of the keeper's slots: the largest sequence, and the slot for a new entry.
ghost use Rattle.std.specs.Prelude.{◌≡◌, ◌<◌};
ghost use Rattle.ends.specs.Records.{slot_at};
ghost use Rattle.ends.specs.Ends.{largest, given_up_before, given_up, slot_for_entry};
ghost use Rattle.ternary.specs.Sizes.{key_size};
ghost use Rattle.end_records.specs.Slots.{slots};
ghost use Rattle.records.specs.SlotBuffers.{slot_count};
ghost use Rattle.slots.specs.Choose.{first_empty};

use end_records::fields;
use records::layout;

// The largest sequence in the keeper.
pub fn largest_sequence(keeper: &[u8]) -> u32
    ensures { result ≡ largest (slots key_size keeper.now) }
{
    let mut most: u32 = 0;
    for i in 0..keeper.len() / layout::SLOT_SIZE {
        most = most.max(fields::sequence_at(keeper, i));
    }
    most
}

// The lowest empty slot.
fn first_empty(keeper: &[u8]) -> Option<usize>
    ensures { result ≡ first_empty (slots key_size keeper.now) }
{
    (0..keeper.len() / layout::SLOT_SIZE).find(|&i| fields::sequence_at(keeper, i) == 0)
}

// Whether slot a is given up before slot b: fewer hits, or as many and a smaller sequence.
fn given_up_before(keeper: &[u8], a: usize, b: usize) -> bool
    requires { (a < slot_count key_size keeper.now) × (b < slot_count key_size keeper.now) }
    ensures { result ≡ given_up_before (slot_at (slots key_size keeper.now) a) (slot_at (slots key_size keeper.now) b) }
{
    let hits = fields::hits_at(keeper, a);
    let others = fields::hits_at(keeper, b);
    hits < others
        || hits == others && fields::sequence_at(keeper, a) < fields::sequence_at(keeper, b)
}

// The slot that is given up first, the lowest of several.
fn given_up(keeper: &[u8]) -> usize
    requires { 0 < slot_count key_size keeper.now }
    ensures { result ≡ given_up (slots key_size keeper.now) }
{
    let mut best: usize = 0;
    for i in 1..keeper.len() / layout::SLOT_SIZE {
        if given_up_before(keeper, i, best) {
            best = i;
        }
    }
    best
}

// The slot for a new entry: the lowest empty one, else the one that is given up first.
pub fn slot_for_entry(keeper: &[u8]) -> usize
    requires { 0 < slot_count key_size keeper.now }
    ensures { result ≡ slot_for_entry (slots key_size keeper.now) }
{
    match first_empty(keeper) {
        Some(i) => i,
        None => given_up(keeper),
    }
}
