// The slots of an end in a lent buffer: a copy of them for a call, and those that the call changed.
ghost use Rattle.std.specs.Prelude.{◌≡◌, ◌<◌};
ghost use Rattle.test_cases.specs.Cases.{part_in, copied_in};

use crate::say::{Hex, say, say_text};
use records::layout::SLOT_SIZE;

// More slots than an end may have.
const MANY_SLOTS: usize = 258;

// The first n bytes of `s`; the empty part where it has fewer, and no `None`: `part_in` states it so.
#[tactic(auto, unfolding(crate::specs::Cases::part_in))]
pub fn front(s: &mut [u8], n: usize) -> &mut [u8]
    ensures { result.now ≡ part_in 0 n s.old }
{
    s.get_mut(..n).unwrap_or(&mut [])
}

// A copy of `old` in the first bytes of `room`; the empty part where it has fewer, and no `None`: `copied_in` states it so.
#[tactic(auto, unfolding(crate::specs::Cases::copied_in))]
pub fn copied<'a>(old: &[u8], room: &'a mut [u8]) -> &'a mut [u8]
    ensures { result.now ≡ copied_in old.now room.old }
{
    let Some(copy) = room.get_mut(..old.len()) else {
        return &mut [];
    };
    copy.copy_from_slice(old);
    copy
}

// The bytes of the i-th slot, as far as `s` has them.
fn slot_part(s: &[u8], i: usize) -> &[u8]
    requires { i < 258 }
{
    let rest = s.get(SLOT_SIZE * i..).unwrap_or(&[]);
    rest.get(..SLOT_SIZE).unwrap_or(rest)
}

// Each slot of an end whose bytes are not as they were, after that word. Where `copied` had no room, none is as it was.
pub fn say_slots(rt: &impl Print, word: &[u8], old: &[u8], new: &[u8]) {
    for i in 0..MANY_SLOTS {
        let old = slot_part(old, i);
        let new = slot_part(new, i);
        if old != new {
            let new = Hex(new);
            say(rt, word);
            say_text(rt, format_args!("{i} {new}"));
        }
    }
}
