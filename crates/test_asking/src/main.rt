// Asks the questions of cases.bin over the parts of parts.bin, both read whole, and prints a line for each: its label, whether the policy that it
// names is accepted, and how many rules it has. Then a line for a file that is missing, and one for an answer that can't be said.
// tests/data/asking_cases.py says how the two files are laid out, and makes them.
#![tactic(auto)]

use std::io;
use test_cases::ask::ask_each;
use test_cases::parts::part_of;
use test_cases::questions::Layout;
use test_cases::say::{Stop, unless_refused};

// A question's record: zero, label's length, filler's length, zero, then where the policy begins and how long it is; then the label and the filler.
const LAYOUT: Layout = Layout {
    header: 12,
    lengths: 1,
};

// Says that a policy is accepted, and gives how many rules it has.
fn accept(rt: &impl Print, policy: &[u8]) -> Result<usize, Stop> {
    let n = policy::check(policy)?;
    print!(rt; " accepted")?;
    Ok(n)
}

fn ask(rt: &impl Print, question: &[u8], parts: &[u8]) -> io::Result<()> {
    rt.write_all(LAYOUT.label(question))?;
    let n = unless_refused(rt, accept(rt, part_of(parts, question, 4)))?;
    print!(rt; ": {n}\n")
}

// Says a question's label, and fails as where its answer can't be said.
fn fail(rt: &impl Print, question: &[u8]) -> io::Result<()> {
    rt.write_all(LAYOUT.label(question))?;
    let unsaid = io::Error::other("unsaid");
    unless_refused(rt, Err(Stop::from(unsaid)))
}

fn main(rt: HostRuntime) -> io::Result<()> {
    ask_each(&rt, "parts.bin", LAYOUT, |question, parts| {
        ask(&rt, question, parts)
    })?;
    let missing = ask_each(&rt, "missing.bin", LAYOUT, |question, parts| {
        ask(&rt, question, parts)
    });
    let is_told = missing.is_err();
    print!(rt; "missing told {is_told}\n")?;
    let failed = ask_each(&rt, "parts.bin", LAYOUT, |question, _| fail(&rt, question));
    let is_told = failed.is_err();
    print!(rt; " told {is_told}\n")
}
