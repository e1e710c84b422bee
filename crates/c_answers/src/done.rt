// A write or a report that is taken, or refused, as numbers.
use crate::structs::WgDone;
use checks::refusal::Refusal;

impl From<Result<(), Refusal>> for WgDone {
    ghost use Rattle.std.specs.Prelude.{◌≡◌};
    ghost use Rattle.c_answers.specs.Answers.{done_for_c};

    ghost from_gives = { λ answer numbers. numbers ≡ done_for_c answer };

    fn from(answer: Result<(), Refusal>) -> WgDone {
        match answer {
            Err(refusal) => WgDone {
                refusal: refusal.number(),
                place: refusal.place(),
            },
            Ok(()) => WgDone {
                refusal: 0,
                place: 0,
            },
        }
    }
}
