// The table's calls, exported.
ghost use Rattle.wunnagresk.specs.TableCalls.{LookupCall, WriteCall};

use c_answers::structs::{WgDone, WgFound};

// Looks a key up; a hit is counted, and its report goes to the start of `out`.
#[unsafe(no_mangle)]
pub extern "C" fn wg_lookup(key: &[u8], table: &mut [u8], out: &mut [u8]) -> WgFound
    ensures { LookupCall key.now table.old out.old result table.new out.new }
{
    wunnagresk::table_calls::wg_lookup(key, table, out)
}

// Receives a write; the report of its slot goes to the start of `out`.
#[unsafe(no_mangle)]
pub extern "C" fn wg_write(table: &mut [u8], message: &[u8], out: &mut [u8]) -> WgDone
    ensures { WriteCall table.old message.now out.old result table.new out.new }
{
    wunnagresk::table_calls::wg_write(table, message, out)
}
