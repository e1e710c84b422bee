// What the program's three files say, by their bytes alone.
ghost use Rattle.std.specs.Prelude.{◌≡◌};
ghost use Rattle.replay_text.specs.Files.{file_answer};

use checks::refusal::Refusal;
use records::layout;

// The most bytes that a policy's and a trace's file may have: 32,768 and 65,536.
pub const MOST_POLICY_BYTES: usize = layout::RULE_SIZE * layout::MOST_RULES;

pub const MOST_TRACE_BYTES: usize = layout::TRACE_SIZE * layout::MOST_PACKETS;

// How many slots slots.txt gives, where the files' sizes are no larger than they may be: refusal 4, then 2 for the policy, then 2 for the trace,
// before any other test.
pub(crate) fn file_answer(slots: &[u8], policy: &[u8], trace: &[u8]) -> Result<usize, Refusal>
    ensures { result ≡ file_answer slots.now policy.now trace.now }
{
    let Some(count) = text::slots_text::slot_count(slots) else {
        return Err(Refusal::BadSlots);
    };
    if policy.len() > MOST_POLICY_BYTES {
        return Err(Refusal::TooMany);
    }
    if trace.len() > MOST_TRACE_BYTES {
        return Err(Refusal::TooMany);
    }
    Ok(count)
}
