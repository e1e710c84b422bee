// Asks the two ends the questions of cases.bin about the parts of buffers.bin, and prints a line for each: its label, the answer, each slot
// that changed, the answer's bytes in the output, and `changed` where another byte of the output did.
// tests/data/ends_cases.py says how the two files are laid out, and makes them.
#![tactic(auto)]

use checks::refusal::Refusal;
use records::layout::{MOST_SLOTS, REPORT_SIZE, WRITE_SIZE};
use records::outcome::{Outcome, number_or_nothing};
use show::Source;
use table::Hit;
use test_cases::ask::{UnknownCall, ask_each_in_rooms};
use test_cases::parts::{byte, number, part, part_of};
use test_cases::questions::Layout;
use test_cases::say::{Hex, UNTOUCHED, say, say_kept, say_text, value_unless_refused};
use test_cases::slots::{copied, front, say_slots};

// A question's record: call, label's length, zero, zero, then where each part begins and how long it is (policy; key or message; table or
// keeper), and the output's length; then the label.
const LAYOUT: Layout = Layout {
    header: 32,
    lengths: 1,
};

// What is asked.
#[derive(Clone, Copy, PartialEq, Eq, Debug)]
enum Call {
    Lookup,
    Write,
    Miss,
    Report,
    Open,
    Show,
}

impl TryFrom<u8> for Call {
    type Error = UnknownCall;

    fn try_from(number: u8) -> Result<Call, UnknownCall> {
        match number {
            1 => Ok(Call::Lookup),
            2 => Ok(Call::Write),
            3 => Ok(Call::Miss),
            4 => Ok(Call::Report),
            5 => Ok(Call::Open),
            6 => Ok(Call::Show),
            _ => Err(UnknownCall),
        }
    }
}

// Each of the following says what a call answers, and gives how many bytes of the output are the answer.

fn say_lookup(rt: &impl Print, answer: Result<Option<Hit>, Refusal>) -> Result<usize, Refusal> {
    match answer? {
        Some(Hit { slot, rule, action }) => {
            say_text(rt, format_args!(" hit {slot} rule {rule} action {action}"));
            Ok(REPORT_SIZE)
        }
        None => {
            say(rt, b" miss");
            Ok(0)
        }
    }
}

// What is taken is answered in so many bytes.
fn say_taken(rt: &impl Print, answer: Result<(), Refusal>, n: usize) -> Result<usize, Refusal> {
    answer?;
    say(rt, b" taken");
    Ok(n)
}

fn say_miss(rt: &impl Print, answer: Result<Outcome, Refusal>) -> Result<usize, Refusal> {
    let Outcome {
        outcome,
        action,
        rule,
        slot,
        evicted,
    } = answer?;
    let rule = number_or_nothing(rule);
    let slot = number_or_nothing(slot);
    let evicted = number_or_nothing(evicted);
    say_text(
        rt,
        format_args!(
            " outcome {outcome} action {action} rule {rule} slot {slot} evicted {evicted}"
        ),
    );
    if records::kinds::gives_write(outcome) {
        Ok(WRITE_SIZE)
    } else {
        Ok(0)
    }
}

// A list of more numbers than an end has slots has no bytes.
fn say_open(rt: &impl Print, answer: Result<usize, Refusal>) -> Result<usize, Refusal> {
    let n = answer?;
    say_text(rt, format_args!(" open {n}"));
    if n <= MOST_SLOTS { Ok(2 * n) } else { Ok(0) }
}

// The answer beside the record that decides.
fn say_show(rt: &impl Print, answer: Result<Option<Source>, Refusal>) -> Result<(), Refusal> {
    match answer? {
        Some(Source::Table(slot)) => say_text(rt, format_args!(" from table {slot}")),
        Some(Source::Policy(rule)) => say_text(rt, format_args!(" from policy {rule}")),
        None => say(rt, b" no rule"),
    }
    Ok(())
}

// What a call gives, unless it is nothing: bytes of the output, or of the table or the policy.
fn say_given(rt: &impl Print, s: &[u8]) {
    if !s.is_empty() {
        let given = Hex(s);
        say_text(rt, format_args!(" gives {given}"));
    }
}

fn ask_show(rt: &impl Print, policy: &[u8], key: &[u8], table: &[u8]) {
    value_unless_refused(rt, say_show(rt, show::show_answer(policy, key, table)));
    say_given(rt, show::show(policy, key, table));
}

// Makes the call, with the policy, the key or message, the table or keeper, and the output.
fn ask_call(
    rt: &impl Print,
    call: Call,
    policy: &[u8],
    given: &[u8],
    state: &mut [u8],
    out: &mut [u8],
) -> Result<usize, Refusal> {
    match call {
        Call::Lookup => say_lookup(rt, table::lookup(given, state, out)),
        Call::Write => say_taken(rt, table::write(state, given, out), REPORT_SIZE),
        Call::Miss => say_miss(rt, miss::miss(policy, given, state, out)),
        Call::Report => say_taken(rt, keeper::report(state, given), 0),
        Call::Open => say_open(rt, keeper::open_list(state, out)),
        Call::Show => {
            ask_show(rt, policy, given, state);
            Ok(0)
        }
    }
}

// One question: its label, and what comes of its call in a copy of its table or keeper. Both buffers are longer than any question needs.
fn ask(rt: &impl Print, question: &[u8], buffers: &[u8]) {
    let mut state = [0; 10320];
    let mut out = [UNTOUCHED; 1024];
    let policy = part_of(buffers, question, 4);
    let given = part_of(buffers, question, 12);
    let old = part_of(buffers, question, 20);
    let new = copied(old, &mut state);
    let room = front(&mut out, number(question, 28));
    say(rt, LAYOUT.label(question));
    let n = match Call::try_from(byte(question, 0)) {
        Ok(call) => value_unless_refused(rt, ask_call(rt, call, policy, given, new, room)),
        Err(UnknownCall) => 0,
    };
    say_slots(rt, b" slot ", old, new);
    say_given(rt, part(&out, 0, n));
    say_kept(rt, &out, n);
    say(rt, b"\n");
}

fn main(rt: HostRuntime) {
    ask_each_in_rooms(&rt, b"buffers.bin", LAYOUT, |question, buffers| {
        ask(&rt, question, buffers);
    });
}
