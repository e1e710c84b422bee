// Asks the library the questions of cases.bin about the policies of policies.bin, and prints a line for each: its label and the answer.
// tests/data/policy_cases.py says how the two files are laid out, and makes them.
#![tactic(auto)]

use checks::refusal::Refusal;
use isolate::rounds::Isolated;
use policy::search::BestRule;
use records::layout::RULE_SIZE;
use records::rule::rule_at;
use ternary::{KEY_SIZE, bits, patterns};
use test_cases::ask::{UnknownCall, ask_each_in_rooms};
use test_cases::parts::{byte, number, part, part_of};
use test_cases::questions::Layout;
use test_cases::say::{Hex, UNTOUCHED, say, say_kept, say_refused, say_text, value_unless_refused};
use test_cases::slots::front;

// A question's record: call, label's length, key's length, zero, then where the policy begins, how long it is, the rule number, the
// output's length, zero; then the label and the key.
const LAYOUT: Layout = Layout {
    header: 24,
    lengths: 1,
};

// What is asked.
#[derive(Clone, Copy, PartialEq, Eq, Debug)]
enum Call {
    Check,
    Best,
    Record,
    Cover,
    Isolate,
    Overlap,
    Match,
}

impl TryFrom<u8> for Call {
    type Error = UnknownCall;

    fn try_from(number: u8) -> Result<Call, UnknownCall> {
        match number {
            1 => Ok(Call::Check),
            2 => Ok(Call::Best),
            3 => Ok(Call::Record),
            4 => Ok(Call::Cover),
            5 => Ok(Call::Isolate),
            6 => Ok(Call::Overlap),
            7 => Ok(Call::Match),
            _ => Err(UnknownCall),
        }
    }
}

// A question's parts; the room is that of the output, or the other rule's number.
#[derive(Clone, Copy)]
struct Given<'a> {
    policy: &'a [u8],
    key: &'a [u8],
    number: usize,
    room: usize,
}

impl<'a> Given<'a> {
    fn of(policies: &'a [u8], question: &'a [u8]) -> Given<'a> {
        let label = usize::from(byte(question, LAYOUT.lengths));
        let key = usize::from(byte(question, LAYOUT.lengths + 1));
        Given {
            policy: part_of(policies, question, 4),
            key: part(question, LAYOUT.header + label, key),
            number: number(question, 12),
            room: number(question, 16),
        }
    }
}

// Each of the following makes a call and says what it answers.

fn ask_check(rt: &impl Print, policy: &[u8]) -> Result<(), Refusal> {
    let n = policy::check(policy)?;
    say_text(rt, format_args!(" rules {n}"));
    Ok(())
}

fn ask_best(rt: &impl Print, policy: &[u8], key: &[u8]) -> Result<(), Refusal> {
    match policy::best(policy, key)? {
        Some(BestRule { number, action }) => {
            say_text(rt, format_args!(" rule {number} action {action}"));
        }
        None => say(rt, b" none"),
    }
    Ok(())
}

// The record with the answer before it.
fn ask_record(rt: &impl Print, policy: &[u8], number: usize) {
    match policy::record::record_answer(policy, number) {
        Ok(()) => say(rt, b" "),
        Err(refusal) => say_refused(rt, refusal),
    }
    say_text(rt, Hex(policy::record::rule_record(policy, number)));
}

// Gives how many numbers the output has.
fn say_cover(rt: &impl Print, answer: Result<usize, Refusal>) -> Result<usize, Refusal> {
    let n = answer?;
    say(rt, b" covers");
    Ok(n)
}

// The first n numbers of two bytes.
fn say_list(rt: &impl Print, out: &[u8], n: usize) {
    for two in out.chunks_exact(2).take(n) {
        let number = u16::from_be_bytes([two[0], two[1]]);
        say_text(rt, format_args!(" {number}"));
    }
}

// The cover list in the first bytes of an output, whose other bytes must stay as they were.
fn ask_cover(rt: &impl Print, policy: &[u8], number: usize, room: usize) {
    let mut out = [UNTOUCHED; 4096];
    let answer = cover::cover(policy, number, front(&mut out, room));
    let n = value_unless_refused(rt, say_cover(rt, answer));
    say_list(rt, &out, n);
    say_kept(rt, &out, n.saturating_mul(2));
}

fn ask_isolate(rt: &impl Print, policy: &[u8], key: &[u8], number: usize) -> Result<(), Refusal> {
    let Isolated {
        pattern,
        fixed,
        wildcards,
    } = isolate::isolate(policy, key, number)?;
    let value = Hex(&pattern.value);
    let mask = Hex(&pattern.mask);
    say_text(
        rt,
        format_args!(" value {value} mask {mask} fixed {fixed} wildcards {wildcards}"),
    );
    Ok(())
}

// Whether rules a and b of a policy overlap.
fn ask_overlap(rt: &impl Print, policy: &[u8], a: usize, b: usize) {
    let n = policy.len() / RULE_SIZE;
    if a >= n || b >= n {
        return;
    }
    if patterns::overlap(rule_at(policy, a).pattern, rule_at(policy, b).pattern) {
        say(rt, b" overlap");
    } else {
        say(rt, b" apart");
    }
}

// Whether a rule of a policy takes the key, and how many of its bits are exact and how many are wildcards.
fn ask_match(rt: &impl Print, policy: &[u8], key: &[u8], number: usize) {
    if number >= policy.len() / RULE_SIZE || key.len() != KEY_SIZE {
        return;
    }
    let its = rule_at(policy, number).pattern;
    let word = if patterns::matches(its, records::row::row_at(key, 0)) {
        "matches"
    } else {
        "differs"
    };
    let exact = bits::exact_bits(its.mask);
    let wildcards = bits::wildcard_bits(its.mask);
    say_text(
        rt,
        format_args!(" {word} exact {exact} wildcards {wildcards}"),
    );
}

// Makes the call, and says what it answers.
fn ask_call(rt: &impl Print, call: Call, given: Given) -> Result<(), Refusal> {
    let Given {
        policy,
        key,
        number,
        room,
    } = given;
    match call {
        Call::Check => ask_check(rt, policy)?,
        Call::Best => ask_best(rt, policy, key)?,
        Call::Record => ask_record(rt, policy, number),
        Call::Cover => ask_cover(rt, policy, number, room),
        Call::Isolate => ask_isolate(rt, policy, key, number)?,
        Call::Overlap => ask_overlap(rt, policy, number, room),
        Call::Match => ask_match(rt, policy, key, number),
    }
    Ok(())
}

// One question: its label, and what comes of its call.
fn ask(rt: &impl Print, policies: &[u8], question: &[u8]) {
    say(rt, LAYOUT.label(question));
    match Call::try_from(byte(question, 0)) {
        Ok(call) => value_unless_refused(rt, ask_call(rt, call, Given::of(policies, question))),
        Err(UnknownCall) => say(rt, b" unknown question"),
    }
    say(rt, b"\n");
}

fn main(rt: HostRuntime) {
    ask_each_in_rooms(&rt, b"policies.bin", LAYOUT, |question, policies| {
        ask(&rt, policies, question);
    });
}
