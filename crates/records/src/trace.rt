// Traces: the keys of the packets.
ghost use Rattle.std.specs.Prelude.{◌≡◌, ◌<◌};
ghost use Rattle.ternary.specs.Sizes.{key_size};
ghost use Rattle.records.specs.Traces.{packet_count, key_in};

use crate::layout;

// The key of the i-th record, as a part of the trace.
pub fn key_at(trace: &[u8], i: usize) -> &[u8]
    requires { i < packet_count key_size trace.now }
    ensures { result.now ≡ key_in key_size trace.now i }
{
    let at = layout::TRACE_SIZE * i + layout::TRACE_KEY;
    &trace[at..at + layout::KEY_SIZE]
}
