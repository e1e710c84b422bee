// The miss's answer as numbers.
use crate::structs::WgOutcome;
use checks::refusal::Refusal;
use records::outcome::{Outcome, number_or_nothing};

impl From<Result<Outcome, Refusal>> for WgOutcome {
    ghost use Rattle.std.specs.Prelude.{◌≡◌};
    ghost use Rattle.c_answers.specs.Answers.{miss_for_c};

    ghost from_gives = { λ answer numbers. numbers ≡ miss_for_c answer };

    fn from(answer: Result<Outcome, Refusal>) -> WgOutcome {
        match answer {
            Err(refusal) => WgOutcome {
                refusal: refusal.number(),
                place: refusal.place(),
                outcome: 0,
                action: 0,
                rule: 0,
                slot: 0,
                evicted: 0,
            },
            Ok(x) => WgOutcome {
                refusal: 0,
                place: 0,
                outcome: u32::from(x.outcome),
                action: x.action,
                rule: number_or_nothing(x.rule),
                slot: number_or_nothing(x.slot),
                evicted: number_or_nothing(x.evicted),
            },
        }
    }
}
