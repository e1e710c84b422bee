// Makes the runs of cases.bin over the parts of buffers.bin, and prints a line for each: its label, the answer, the totals, each slot of the
// table and of the keeper that changed, the outcomes' bytes, and `changed` where another byte of the output did.
// tests/data/run_cases.py says how the two files are laid out, and makes them.
#![tactic(auto)]

use checks::refusal::Refusal;
use records::layout::{MOST_PACKETS, OUTCOME_SIZE};
use run::Ran;
use test_cases::ask::ask_each_in_rooms;
use test_cases::parts::{bytes_at, number, part, part_of};
use test_cases::questions::Layout;
use test_cases::say::{Hex, UNTOUCHED, say, say_kept, say_text, value_unless_refused};
use test_cases::slots::{copied, front, say_slots};
use totals::Totals;

// A question's record: zero, label's length, zero, zero, then where each part begins and how long it is (policy, trace, table, keeper), where the
// totals begin, and the output's length; then the label.
const LAYOUT: Layout = Layout {
    header: 44,
    lengths: 1,
};

// The five totals at the start of `s`.
fn totals_at(s: &[u8]) -> Totals {
    let total = |at| u64::from_be_bytes(bytes_at(s, at));
    Totals {
        packets: total(0),
        hits: total(8),
        misses: total(16),
        none: total(24),
        evictions: total(32),
    }
}

fn say_totals(rt: &impl Print, totals: Totals) {
    let Totals {
        packets,
        hits,
        misses,
        none,
        evictions,
    } = totals;
    say_text(
        rt,
        format_args!(" totals {packets} {hits} {misses} {none} {evictions}"),
    );
}

// Says what a run answers, and gives how many bytes of the output are its outcomes; those of more packets than a run has are none.
// Beside `say_open` of test_ends: word, limit and size would be parameters, and nothing but the test would be shared.
fn say_answer(rt: &impl Print, answer: Result<usize, Refusal>) -> Result<usize, Refusal> {
    let n = answer?;
    say_text(rt, format_args!(" packets {n}"));
    if n <= MOST_PACKETS {
        Ok(OUTCOME_SIZE * n)
    } else {
        Ok(0)
    }
}

// One question: its label, and what comes of its run in copies of its ends. The buffers are longer than any question needs; every byte of the
// output but the outcomes must be as it was.
fn ask(rt: &impl Print, question: &[u8], buffers: &[u8]) {
    let mut table = [0; 10320];
    let mut keeper = [0; 10320];
    let mut out = [UNTOUCHED; 49164];
    let policy = part_of(buffers, question, 4);
    let trace = part_of(buffers, question, 12);
    let old_table = part_of(buffers, question, 20);
    let old_keeper = part_of(buffers, question, 28);
    let totals = totals_at(part(buffers, number(question, 36), 40));
    let table = copied(old_table, &mut table);
    let keeper = copied(old_keeper, &mut keeper);
    let room = front(&mut out, number(question, 40));
    say(rt, LAYOUT.label(question));
    let Ran { answer, totals } = run::run(policy, trace, table, keeper, room, totals);
    let n = value_unless_refused(rt, say_answer(rt, answer));
    say_totals(rt, totals);
    let told = Hex(part(&out, 0, n));
    say_text(rt, format_args!(" gives {told}"));
    say_kept(rt, &out, n);
    say_slots(rt, b" table ", old_table, table);
    say_slots(rt, b" keeper ", old_keeper, keeper);
    say(rt, b"\n");
}

fn main(rt: HostRuntime) {
    ask_each_in_rooms(&rt, b"buffers.bin", LAYOUT, |question, buffers| {
        ask(&rt, question, buffers);
    });
}
