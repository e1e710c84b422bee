// The table looks a key up.
ghost use Rattle.std.specs.Prelude.{◌≡◌};
ghost use Rattle.table.specs.Lookups.{find_answer};

use checks::buffer::slot_count;
use checks::key::check_key;
use checks::refusal::Refusal;
use records::layout;

// The slot that a lookup hits, if there is one, with an output of `out_len` bytes: refusals 1 of the key, 4, then 5 of a hit. It changes nothing.
// The length alone: an output is lent to write only once nothing is refused.
pub(crate) fn find(key: &[u8], table: &[u8], out_len: usize) -> Result<Option<usize>, Refusal>
    ensures { result ≡ find_answer key.now table.now out_len }
{
    check_key(key)?;
    slot_count(table)?;
    // Lent anew, as a part: a slice handed on as it came is copied whole first, and a lookup that hits took 28 ns, not 17 (docs/DECISIONS.md).
    let all = &key[0..layout::KEY_SIZE];
    let Some(i) = slots::find::first_slot_for(table, all) else {
        return Ok(None);
    };
    if out_len < layout::REPORT_SIZE {
        return Err(Refusal::ShortOutput);
    }
    Ok(Some(i))
}
