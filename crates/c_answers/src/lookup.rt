// The lookup's answer as numbers.
use crate::structs::WgFound;
use checks::refusal::Refusal;
use records::kinds;
use table::Hit;

impl From<Result<Option<Hit>, Refusal>> for WgFound {
    ghost use Rattle.std.specs.Prelude.{◌≡◌};
    ghost use Rattle.c_answers.specs.Answers.{lookup_for_c};

    ghost from_gives = { λ answer numbers. numbers ≡ lookup_for_c answer };

    fn from(answer: Result<Option<Hit>, Refusal>) -> WgFound {
        match answer {
            Err(refusal) => WgFound {
                refusal: refusal.number(),
                place: refusal.place(),
                hit: 0,
                slot: 0,
                rule: 0,
                action: 0,
            },
            Ok(None) => WgFound {
                refusal: 0,
                place: 0,
                hit: 0,
                slot: kinds::NOTHING,
                rule: kinds::NOTHING,
                action: 0,
            },
            Ok(Some(hit)) => WgFound {
                refusal: 0,
                place: 0,
                hit: 1,
                slot: hit.slot,
                rule: hit.rule,
                action: hit.action,
            },
        }
    }
}
