// Asks what the program prints of the files of each case of cases.bin, whose bytes are parts of parts.bin; prints the case's label, then the text.
// tests/data/replay_cases.py says how the two files are laid out, and makes them.
#![tactic(auto)]

use test_cases::ask::ask_each_in_rooms;
use test_cases::parts::part_of;
use test_cases::questions::Layout;
use test_cases::say::{UNTOUCHED, say};

// A case's record: label's length, zero 3, then where each part begins and how long it is (slots.txt, policy.bin, trace.bin); then the label.
const LAYOUT: Layout = Layout {
    header: 28,
    lengths: 0,
};

// One case: its label, and the text.
fn ask(rt: &impl Print, question: &[u8], parts: &[u8]) {
    let slots = part_of(parts, question, 4);
    let policy = part_of(parts, question, 12);
    let trace = part_of(parts, question, 20);
    let mut out = [UNTOUCHED; replay_text::MOST_TEXT];
    let n = replay_text::text(slots, policy, trace, &mut out);
    say(rt, LAYOUT.label(question));
    say(rt, b"\n");
    say(rt, &out[..n]);
}

fn main(rt: HostRuntime) {
    ask_each_in_rooms(&rt, b"parts.bin", LAYOUT, |question, parts| {
        ask(&rt, question, parts);
    });
}
