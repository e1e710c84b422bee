// Records that are checked as a whole: how many there may be, and the first one with a flaw.
ghost use Rattle.std.specs.Prelude.{◌≡◌, ℕ, ◌/◌, ◌<◌, List, length, Option};
ghost use Rattle.ternary.specs.Sizes.{key_size};
ghost use Rattle.records.specs.Layout.{rule_size, trace_size, most_rules, most_packets};
ghost use Rattle.checks.specs.Flaws.{rule_flaw, trace_flaw};
ghost use Rattle.checks.specs.Refusals.{answer_of};
ghost use Rattle.checks.specs.Flawed.{first_flawed, flaw_at, records_refusal};
ghost use Rattle.checks.specs.declared.flaw.Flaw.{Flaw as FlawOf};

use crate::flaw::{Flaw, rule_flaw, trace_flaw};
use crate::refusal::Refusal;
use records::layout;

// A kind of record: its size, how many there may be, and what is wrong with one.
pub trait Record {
    ghost SIZE: { ℕ };

    ghost MOST: { ℕ };

    ghost flaw_of: { List ℕ → Option FlawOf };

    const SIZE: usize;

    const MOST: usize;

    fn flaw(bytes: &[u8]) -> Option<Flaw>
        requires { length bytes.now ≡ SIZE }
        ensures { result ≡ flaw_of bytes.now };

    ghost some_bytes: { 0 < SIZE };
}

// A policy's rule.
pub struct Rule;

impl Record for Rule {
    ghost use Rattle.std.proofs.Common.{lit<};

    ghost SIZE = { rule_size key_size };

    ghost MOST = { most_rules };

    ghost flaw_of = { rule_flaw key_size };

    ghost some_bytes = { lit< tt };

    const SIZE: usize = layout::RULE_SIZE;

    const MOST: usize = layout::MOST_RULES;

    fn flaw(bytes: &[u8]) -> Option<Flaw> {
        rule_flaw(bytes)
    }
}

// A trace's packet.
pub struct Packet;

impl Record for Packet {
    ghost use Rattle.std.proofs.Common.{lit<};

    ghost SIZE = { trace_size key_size };

    ghost MOST = { most_packets };

    ghost flaw_of = { trace_flaw key_size };

    ghost some_bytes = { lit< tt };

    const SIZE: usize = layout::TRACE_SIZE;

    const MOST: usize = layout::MOST_PACKETS;

    fn flaw(bytes: &[u8]) -> Option<Flaw> {
        trace_flaw(bytes)
    }
}

// A record with a flaw, by its place.
#[derive(Clone, Copy, Debug, PartialEq, Eq)]
pub struct Flawed {
    pub place: usize,
    pub flaw: Flaw,
}

// The first record with a flaw.
pub fn first_flawed<R: Record>(records: &[u8]) -> Option<Flawed>
    ensures { result ≡ first_flawed (flaw_at R.flaw_of R.SIZE records.now) (length records.now / R.SIZE) }
{
    for (place, record) in records.chunks_exact(R::SIZE).enumerate() {
        if let Some(flaw) = R::flaw(record) {
            return Some(Flawed { place, flaw });
        }
    }
    None
}

// How many records there are: refused as 1 where the last is cut off, as 2 where there are too many, and as 3 with the place of the first that has a
// flaw.
pub fn record_count<R: Record>(records: &[u8]) -> Result<usize, Refusal>
    ensures { result ≡ answer_of (records_refusal R.SIZE R.MOST R.flaw_of records.now) (length records.now / R.SIZE) }
{
    if records.len() % R::SIZE != 0 {
        return Err(Refusal::Ragged);
    }
    let count = records.len() / R::SIZE;
    if count > R::MOST {
        return Err(Refusal::TooMany);
    }
    match first_flawed::<R>(records) {
        Some(Flawed { place, .. }) => Err(Refusal::BadRecord { place }),
        None => Ok(count),
    }
}
