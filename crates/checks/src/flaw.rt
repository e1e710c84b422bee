// Flaws: a record's spare byte that is not zero, or a value bit of it under a wildcard.
ghost use Rattle.std.specs.Prelude.{◌≡◌, ◌+◌, ◌-◌, ◌≤◌, length};
ghost use Rattle.ternary.specs.Sizes.{key_size};
ghost use Rattle.records.specs.Layout.{rule_size, trace_size, write_size, report_size};
ghost use Rattle.checks.specs.Flaws.{flaw_of, first_nonzero, offsets, stray_byte_in, rule_flaw, trace_flaw, write_flaw, report_flaw};

use records::layout;
use records::row::rows_at;

// What is wrong with a record, with the lowest byte of it that is: a spare byte is told before a value bit.
#[derive(Clone, Copy, Debug, PartialEq, Eq)]
pub enum Flaw {
    Spare(usize),
    Stray(usize),
}

// The value bits of a record under its wildcards, as a flaw: of the pattern at `at`. Inlined, so that a check of a policy keeps no place in memory.
#[inline(always)]
fn stray_flaw(r: &[u8], at: usize) -> Option<Flaw>
    requires { at + (key_size + key_size) ≤ length r.now }
    ensures { result ≡ flaw_of None (stray_byte_in key_size at (at + key_size) r.now) }
{
    let (value, mask) = rows_at(r, at);
    ternary::bits::first_stray(value, mask).map(|i| Flaw::Stray(at + i))
}

// The bytes from `at` up to `end`, which must be zero, as a flaw: the first that is not.
fn spare_flaw(r: &[u8], at: usize, end: usize) -> Option<Flaw>
    requires { (at ≤ end) × (end ≤ length r.now) }
    ensures { result ≡ flaw_of (first_nonzero (offsets at (end - at)) r.now) None }
{
    r[at..end]
        .iter()
        .position(|byte| *byte != 0)
        .map(|i| Flaw::Spare(at + i))
}

// The flaw of a rule's record.
pub(crate) fn rule_flaw(r: &[u8]) -> Option<Flaw>
    requires { length r.now ≡ rule_size key_size }
    ensures { result ≡ rule_flaw key_size r.now }
{
    let spare = spare_flaw(r, layout::RULE_SPARE, layout::RULE_SIZE);
    spare.or(stray_flaw(r, layout::RULE_VALUE))
}

// The flaw of a trace's record.
pub(crate) fn trace_flaw(r: &[u8]) -> Option<Flaw>
    requires { length r.now ≡ trace_size key_size }
    ensures { result ≡ trace_flaw key_size r.now }
{
    spare_flaw(r, layout::TRACE_SPARE, layout::TRACE_SIZE)
}

// The flaw of a write.
pub fn write_flaw(r: &[u8]) -> Option<Flaw>
    requires { length r.now ≡ write_size key_size }
    ensures { result ≡ write_flaw key_size r.now }
{
    let zero = spare_flaw(r, layout::WRITE_ZERO, layout::WRITE_SLOT);
    let spare = spare_flaw(r, layout::WRITE_SPARE, layout::WRITE_SIZE);
    let stray = stray_flaw(r, layout::WRITE_VALUE);
    zero.or(spare.or(stray))
}

// The flaw of a report.
pub fn report_flaw(r: &[u8]) -> Option<Flaw>
    requires { length r.now ≡ report_size }
    ensures { result ≡ report_flaw r.now }
{
    spare_flaw(r, layout::REPORT_ZERO, layout::REPORT_SLOT)
}
