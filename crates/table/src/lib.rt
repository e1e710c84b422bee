// The table looks a key up, and receives a write.
#![tactic(auto)]

pub mod lookups;
pub mod writes;

ghost use Rattle.table.specs.Lookups.{LookedUp};
ghost use Rattle.table.specs.Writes.{Received};

use crate::lookups::find;
use crate::writes::check_write;
use checks::refusal::Refusal;
use end_records::report::{Report, put_report};

// A hit: the lowest slot that takes the key, with its rule and its action.
#[derive(Clone, Copy, Debug, PartialEq, Eq)]
pub struct Hit {
    pub slot: u16,
    pub rule: u16,
    pub action: u16,
}

// Looks a key up: a hit is counted, and its report goes to the start of `out`. A miss and a refusal (1 of the key, 4, 5) change nothing.
pub fn lookup(key: &[u8], table: &mut [u8], out: &mut [u8]) -> Result<Option<Hit>, Refusal>
    ensures { LookedUp key.now table.old out.old result table.new out.new }
{
    let Some(i) = find(key, table, out.len())? else {
        return Ok(None);
    };
    let x = slots::hits::count_hit(table, i);
    // A cast: no u16::from takes a usize.
    let slot = i as u16;
    put_report(
        out,
        Report {
            slot,
            sequence: x.sequence,
            hits: x.hits,
        },
    );
    Ok(Some(Hit {
        slot,
        rule: x.rule,
        action: x.action,
    }))
}

// Receives a write: a newer one replaces its slot, and the report of the slot as it then is goes to the start of `out`. A refusal changes
// nothing.
pub fn write(table: &mut [u8], message: &[u8], out: &mut [u8]) -> Result<(), Refusal>
    ensures { Received table.old message.now out.old result table.new out.new }
{
    check_write(table, message, out.len())?;
    let w = end_records::write::write_of(message);
    let stored = slots::entry::store_newer(table, w);
    put_report(
        out,
        Report {
            slot: w.slot,
            sequence: stored.sequence,
            hits: stored.hits,
        },
    );
    Ok(())
}
