// Asking the questions of a file of cases.
ghost use Rattle.std.specs.Prelude.{◌<◌};

use crate::files::read;
use crate::questions::Layout;
use std::rt::Files;
use std::{fs, io};

// A number that no call has.
#[derive(Clone, Copy, PartialEq, Eq, Debug)]
pub struct UnknownCall;

// How much is read of the file of parts; a longer file, or an endless one, is read no further.
const PARTS_ROOM: usize = 262_144;

// The same of cases.bin.
const CASES_ROOM: usize = 65_536;

// Asks each question of cases.bin, with the bytes of the file whose parts the questions name. Both are read whole; the first failure, of a file or
// of an answer, is told, and nothing is asked after it. No contract can speak of files.
pub fn ask_each<F: Fn(&[u8], &[u8]) -> io::Result<()>>(
    rt: &(impl Files + Alloc),
    parts_path: &str,
    layout: Layout,
    ask: F,
) -> io::Result<()>
    requires narrow { (layout.header < 256) × (layout.lengths < 256) }
    requires callable { F.IsAlwaysCallable ask }
{
    let parts = fs::read(rt, parts_path)?;
    let cases = fs::read(rt, "cases.bin")?;
    layout
        .questions(&cases)
        .try_for_each(|question| ask(question, &parts))
}

// The same for a program that tells no failure and has no heap, as the `main` of a test program: of each file as much counts as came and its room
// holds, and every question of that is asked.
pub fn ask_each_in_rooms<F: Fn(&[u8], &[u8])>(
    rt: &impl Files,
    parts_name: &[u8],
    layout: Layout,
    ask: F,
)
    requires narrow { (layout.header < 256) × (layout.lengths < 256) }
    requires callable { F.IsAlwaysCallable ask }
{
    let mut parts = [0; PARTS_ROOM];
    let mut cases = [0; CASES_ROOM];
    let parts_len = read(rt, parts_name, &mut parts);
    let cases_len = read(rt, b"cases.bin", &mut cases);
    for question in layout.questions(&cases[..cases_len]) {
        ask(question, &parts[..parts_len]);
    }
}
