// The program over files that are missing, that can't be read or that are too long, each case in a folder of its own; prints the case's name first.
#![tactic(auto)]

use std::rt::Files;

// A case's name as a line, and the files in the folder of that name.
macro_rules! case {
    ($name:literal) => {
        [
            concat!($name, "\n"),
            concat!($name, "/slots.txt"),
            concat!($name, "/policy.bin"),
            concat!($name, "/trace.bin"),
        ]
    };
}

const CASES: [[&str; 4]; 6] = [
    // No file is there.
    case!("missing"),
    // The policy's file is a folder, which counts as empty.
    case!("folder_policy"),
    // The trace's file is a folder.
    case!("folder_trace"),
    // The slots' file is a folder.
    case!("folder_slots"),
    // The policy's file is one byte longer than a policy may be.
    case!("large_policy"),
    // The trace's file is one byte longer than a trace may be.
    case!("large_trace"),
];

// One case: its name, and what the program prints of its files. That standard output can't be written is told by the program alone.
fn ask(rt: &(impl Files + Print + Eprint), case: [&str; 4]) {
    let [line, slots, policy, trace] = case;
    let _ = rt.write_all(line.as_bytes());
    let _ = replay_files::run(rt, slots.as_bytes(), policy.as_bytes(), trace.as_bytes());
}

fn main(rt: HostRuntime) {
    for case in CASES {
        ask(&rt, case);
    }
}
