// The table's calls for C.
ghost use Rattle.wunnagresk.specs.TableCalls.{LookupCall, WriteCall};

use c_answers::structs::{WgDone, WgFound};

// Looks a key up; a hit is counted, and its report goes to the start of `out`.
pub fn wg_lookup(key: &[u8], table: &mut [u8], out: &mut [u8]) -> WgFound
    ensures { LookupCall key.now table.old out.old result table.new out.new }
{
    table::lookup(key, table, out).into()
}

// Receives a write; the report of its slot goes to the start of `out`.
pub fn wg_write(table: &mut [u8], message: &[u8], out: &mut [u8]) -> WgDone
    ensures { WriteCall table.old message.now out.old result table.new out.new }
{
    table::write(table, message, out).into()
}
