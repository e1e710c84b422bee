// The files of a test program, read as far as a room of fixed size goes.
ghost use Rattle.std.specs.Counts.{IsPrefixLen};

use std::fs::File;
use std::io::Read;
use std::rt::Files;

// Reads until the file ends, buf is full or a read fails, and gives how many bytes came.
fn read_full(file: &mut impl Read, buf: &mut [u8]) -> usize
    ensures { IsPrefixLen result buf.new }
{
    // A loop, since the room is fixed: `read_to_end` needs a Vec, and `read_exact` does not tell how many bytes came before the end.
    let mut at = 0;
    while at < buf.len() {
        match file.read(&mut buf[at..]) {
            Ok(0) | Err(_) => return at,
            Ok(n) => at += n,
        }
    }
    at
}

// Reads the file of that name, and gives how many bytes came; none where it can't be opened.
pub fn read(rt: &impl Files, name: &[u8], buf: &mut [u8]) -> usize
    ensures { IsPrefixLen result buf.new }
{
    let Ok(path) = str::from_utf8(name) else {
        return 0;
    };
    match File::open(rt, path) {
        Ok(mut file) => read_full(&mut file, buf),
        Err(_) => 0,
    }
}
