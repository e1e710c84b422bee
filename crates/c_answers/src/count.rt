// An answer that is a count, as numbers.
use crate::structs::WgCount;
use checks::refusal::Refusal;

// Of the check, of the cover list and the open list, of the run.
impl From<Result<usize, Refusal>> for WgCount {
    ghost use Rattle.std.specs.Prelude.{◌≡◌};
    ghost use Rattle.c_answers.specs.Answers.{count_for_c};

    ghost from_gives = { λ answer numbers. numbers ≡ count_for_c answer };

    fn from(answer: Result<usize, Refusal>) -> WgCount {
        match answer {
            Err(refusal) => WgCount {
                refusal: refusal.number(),
                place: refusal.place(),
                count: 0,
            },
            Ok(count) => WgCount {
                refusal: 0,
                place: 0,
                count,
            },
        }
    }
}
