// The program: reads slots.txt, policy.bin and trace.bin, and prints what they come to.
#![tactic(auto)]

ghost use Rattle.replay_files.specs.Status.{IsStatus};
ghost use Rattle.std.specs.Counts.{IsPrefixLen};
ghost use Rattle.std.specs.Prelude.{◌≤◌, length};

use std::fs::File;
use std::io;
use std::io::{ErrorKind, Read};
use std::process::ExitCode;
use std::rt::Files;

// One byte more than each file may have: a longer file is seen to be longer, and an endless one is read no further.
const SLOTS_ROOM: usize = text::slots_text::MOST + 1;

const POLICY_ROOM: usize = replay_text::files::MOST_POLICY_BYTES + 1;

const TRACE_ROOM: usize = replay_text::files::MOST_TRACE_BYTES + 1;

// How the program ends where nobody reads its output any more: as a shell tells an end by the signal of a broken pipe, which std holds back.
const BROKEN_PIPE: u8 = 141;

// Reads to the file's end or until buf is full, and gives how many bytes came; 0 where a read fails, also half way.
fn read_all(file: &mut impl Read, buf: &mut [u8]) -> usize
    ensures { IsPrefixLen result buf.new }
{
    // A loop, since the program's memory is fixed: `read_to_end` needs a Vec, and `read_exact` does not tell how many bytes came before the end.
    let mut at = 0;
    while at < buf.len() {
        match file.read(&mut buf[at..]) {
            Ok(0) => return at,
            Ok(n) => at += n,
            Err(_) => return 0,
        }
    }
    at
}

// The bytes of a file, read into buf; one that can't be opened or read counts as empty, and so does one whose name is no text.
fn read_file<'a>(rt: &impl Files, name: &[u8], buf: &'a mut [u8]) -> &'a [u8]
    ensures { length result.now ≤ length buf.old }
{
    let Ok(path) = str::from_utf8(name) else {
        return &[];
    };
    let Ok(mut file) = File::open(rt, path) else {
        return &[];
    };
    let n = read_all(&mut file, buf);
    &buf[..n]
}

// Tells on standard error that standard output can't be written, unless it is that nobody reads it, and gives how the program ends.
fn unwritten(rt: &impl Eprint, error: io::Error) -> ExitCode
    ensures { IsStatus result }
{
    if error.kind() == ErrorKind::BrokenPipe {
        return ExitCode::from(BROKEN_PIPE);
    }
    let _ = eprintln!(rt; "standard output: {error}");
    ExitCode::SUCCESS
}

// Prints what the files come to.
fn print(rt: &(impl Print + Eprint), slots: &[u8], policy: &[u8], trace: &[u8]) -> ExitCode
    ensures { IsStatus result }
{
    let mut out = [0; replay_text::MOST_TEXT];
    let n = replay_text::text(slots, policy, trace, &mut out);
    match rt.write_all(&out[..n]) {
        Ok(()) => ExitCode::SUCCESS,
        Err(error) => unwritten(rt, error),
    }
}

// Runs the program over the files of these names, and gives how it ends. A name is bytes: with `&str`, `run`
// would take fewer, and one that is no text counts as a missing file.
pub fn run(
    rt: &(impl Files + Print + Eprint),
    slots_name: &[u8],
    policy_name: &[u8],
    trace_name: &[u8],
) -> ExitCode
    ensures { IsStatus result }
{
    let mut slots = [0; SLOTS_ROOM];
    let mut policy = [0; POLICY_ROOM];
    let mut trace = [0; TRACE_ROOM];
    let slots = read_file(rt, slots_name, &mut slots);
    let policy = read_file(rt, policy_name, &mut policy);
    let trace = read_file(rt, trace_name, &mut trace);
    print(rt, slots, policy, trace)
}

// Runs the program in the folder that it was started in.
pub fn run_here(rt: &(impl Files + Print + Eprint)) -> ExitCode
    ensures { IsStatus result }
{
    run(rt, b"slots.txt", b"policy.bin", b"trace.bin")
}
