// One packet of a run: each message is delivered at once. Table and keeper go apart through a run, as `run` is lent them: a struct of the two would
// be taken apart again at every call of either end.
ghost use Rattle.run.specs.Packets.{FinePacket, PacketDone, missed_outcome, missed_ends, packet_outcome, packet_ends};

use miss::decision::Decision;
use records::layout;
use records::outcome::{Outcome, unless_nothing};

// A miss goes to the keeper, and the write, where one is given, to the table.
fn missed(policy: &[u8], key: &[u8], table: &mut [u8], keeper: &mut [u8]) -> Outcome
    requires { FinePacket policy.now key.now table.old keeper.old }
    ensures { PacketDone (missed_outcome policy.now key.now keeper.old)
        (missed_ends policy.now key.now table.old keeper.old)
        result table.new keeper.new }
{
    let d = miss::decide::decide_miss(policy, key, keeper);
    let Decision { outcome, write } = d;
    if let Some(write) = write {
        miss::carry::put_new_entry(keeper, outcome.outcome, write);
        crate::send::send_write(write, table, keeper);
    }
    outcome
}

// One packet: the table looks the key up; a hit's report goes to the keeper, and so does a miss. What an end refuses changes nothing there.
pub(crate) fn one_packet(policy: &[u8], key: &[u8], table: &mut [u8], keeper: &mut [u8]) -> Outcome
    requires { FinePacket policy.now key.now table.old keeper.old }
    ensures { PacketDone (packet_outcome policy.now key.now table.old keeper.old)
        (packet_ends policy.now key.now table.old keeper.old)
        result table.new keeper.new }
{
    let mut report = [0; layout::REPORT_SIZE];
    let found = table::lookup(key, table, &mut report).ok().flatten();
    if let Some(hit) = found {
        let _ = keeper::report(keeper, &report);
        return Outcome {
            outcome: records::kinds::HIT,
            action: hit.action,
            rule: unless_nothing(hit.rule),
            slot: Some(hit.slot),
            evicted: None,
        };
    }
    missed(policy, key, table, keeper)
}
