// The best rule as numbers.
use crate::structs::WgBestAnswer;
use checks::refusal::Refusal;
use policy::search::BestRule;
use records::kinds;

impl From<Result<Option<BestRule>, Refusal>> for WgBestAnswer {
    ghost use Rattle.std.specs.Prelude.{◌≡◌};
    ghost use Rattle.c_answers.specs.Answers.{best_for_c};

    ghost from_gives = { λ answer numbers. numbers ≡ best_for_c answer };

    fn from(answer: Result<Option<BestRule>, Refusal>) -> WgBestAnswer {
        match answer {
            Err(refusal) => WgBestAnswer {
                refusal: refusal.number(),
                place: refusal.place(),
                found: 0,
                rule: 0,
                action: 0,
            },
            Ok(None) => WgBestAnswer {
                refusal: 0,
                place: 0,
                found: 0,
                rule: kinds::NOTHING,
                action: 0,
            },
            Ok(Some(best)) => WgBestAnswer {
                refusal: 0,
                place: 0,
                found: 1,
                rule: best.number,
                action: best.action,
            },
        }
    }
}
