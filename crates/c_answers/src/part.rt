// Where a record lies that is shown, as numbers.
ghost use Rattle.std.specs.Prelude.{◌≡◌};
ghost use Rattle.policy.specs.RecordAnswers.{record_answer};
ghost use Rattle.c_answers.specs.Parts.{record_for_c};

use crate::structs;
use crate::structs::{WgPart, WgShown};
use checks::refusal::Refusal;
use records::{kinds, layout};
use show::Source;

// Of the record of that number: where it lies in the policy.
pub fn record_for_c(policy: &[u8], number: usize) -> WgPart
    ensures { result ≡ record_for_c (record_answer policy.now number) number }
{
    match policy::record::record_answer(policy, number) {
        Err(refusal) => WgPart {
            refusal: refusal.number(),
            place: refusal.place(),
            offset: 0,
            length: 0,
        },
        Ok(()) => WgPart {
            refusal: 0,
            place: 0,
            offset: layout::RULE_SIZE * number,
            length: layout::RULE_SIZE,
        },
    }
}

// Of showing the decision.
impl From<Result<Option<Source>, Refusal>> for WgShown {
    ghost use Rattle.std.specs.Prelude.{◌≡◌};
    ghost use Rattle.c_answers.specs.Parts.{show_for_c};

    ghost from_gives = { λ answer numbers. numbers ≡ show_for_c answer };

    fn from(answer: Result<Option<Source>, Refusal>) -> WgShown {
        match answer {
            Err(refusal) => WgShown {
                refusal: refusal.number(),
                place: refusal.place(),
                source: structs::FROM_NOTHING,
                number: 0,
                offset: 0,
                length: 0,
            },
            Ok(None) => WgShown {
                refusal: 0,
                place: 0,
                source: structs::FROM_NOTHING,
                number: usize::from(kinds::NOTHING),
                offset: 0,
                length: 0,
            },
            Ok(Some(Source::Table(slot))) => WgShown {
                refusal: 0,
                place: 0,
                source: structs::FROM_TABLE,
                number: usize::from(slot),
                offset: layout::SLOT_SIZE * usize::from(slot),
                length: layout::SLOT_SIZE,
            },
            Ok(Some(Source::Policy(rule))) => WgShown {
                refusal: 0,
                place: 0,
                source: structs::FROM_POLICY,
                number: usize::from(rule),
                offset: layout::RULE_SIZE * usize::from(rule),
                length: layout::RULE_SIZE,
            },
        }
    }
}
