// A rule's record by its number, as a part of the policy that a caller lends.
ghost use Rattle.std.specs.Prelude.{◌≡◌};
ghost use Rattle.policy.specs.RecordAnswers.{record_answer, shown_record};

use checks::refusal::Refusal;
use records::layout;

// Whether the record of that number is shown: refusals 1, 2 and 3 of the policy, then 6. It changes nothing.
pub fn record_answer(policy: &[u8], number: usize) -> Result<(), Refusal>
    ensures { result ≡ record_answer policy.now number }
{
    let count = crate::check(policy)?;
    if number >= count {
        return Err(Refusal::NoSuchRule);
    }
    Ok(())
}

// The record of that number, as a part of the policy that was lent; the empty part where `record_answer` refuses.
pub fn rule_record<'a>(policy: &'a [u8], number: usize) -> &'a [u8]
    ensures { result.now ≡ shown_record policy.now number }
{
    match record_answer(policy, number) {
        Err(_) => &policy[0..0],
        Ok(()) => {
            let at = layout::RULE_SIZE * number;
            &policy[at..at + layout::RULE_SIZE]
        }
    }
}
