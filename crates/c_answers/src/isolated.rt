// The answer that isolates as numbers, and its pattern as bytes.
ghost use Rattle.std.specs.Prelude.{◌≡◌, ◌++◌, ◌≤◌, length};
ghost use Rattle.ternary.specs.Sizes.{positions};
ghost use Rattle.buffers.specs.Parts.{splice};
ghost use Rattle.c_answers.specs.Isolate.{pattern_size, refused_counts, isolated_counts};
ghost use Rattle.c_answers.specs.IsolateCalls.{IsolateCall};

use crate::structs::WgIsolated;
use checks::refusal::Refusal;
use records::layout;
use records::layout::PATTERN_SIZE;
use ternary::Pattern;

// Of a refusal.
fn refused_numbers(refusal: Refusal) -> WgIsolated
    ensures { result ≡ refused_counts refusal }
{
    WgIsolated {
        refusal: refusal.number(),
        place: refusal.place(),
        fixed: 0,
        wildcards: 0,
    }
}

// Of a rule that is isolated: its fixed bits, and its wildcard bits left. No `From`, which could not ask that they are positions at most.
fn isolated_numbers(fixed: usize, wildcards: usize) -> WgIsolated
    requires { (fixed ≤ positions) × (wildcards ≤ positions) }
    ensures { result ≡ isolated_counts fixed wildcards }
{
    WgIsolated {
        refusal: 0,
        place: 0,
        // Casts: no u32::from takes a usize.
        fixed: fixed as u32,
        wildcards: wildcards as u32,
    }
}

// Writes a pattern to the start of `out`, value then mask; every other byte stays.
fn put_pattern(out: &mut [u8], pattern: Pattern)
    requires { pattern_size ≤ length out.old }
    ensures { out.new ≡ splice 0 (pattern.value ++ pattern.mask) out.old }
{
    buffers::put_bytes(out, 0, &pattern.value);
    buffers::put_bytes(out, layout::KEY_SIZE, &pattern.mask);
}

// Isolates the key's best rule, and writes its pattern to the start of `out`; a refusal leaves it as it was.
pub fn isolate_with(policy: &[u8], key: &[u8], number: usize, out: &mut [u8]) -> WgIsolated
    ensures { IsolateCall policy.now key.now number out.old result out.new }
{
    let isolated = match isolate::isolate(policy, key, number) {
        Ok(isolated) => isolated,
        Err(refusal) => return refused_numbers(refusal),
    };
    if out.len() < PATTERN_SIZE {
        return refused_numbers(Refusal::ShortOutput);
    }
    put_pattern(out, isolated.pattern);
    isolated_numbers(isolated.fixed, isolated.wildcards)
}
