// A miss arrives at the keeper: what it comes to, and the write that is given.
#![tactic(auto)]

pub mod carry;
pub mod decide;
pub mod decision;

ghost use Rattle.miss.specs.Decide.{FineMiss};
ghost use Rattle.miss.specs.Answers.{OnMiss, Missed};

use checks::refusal::Refusal;
use records::outcome::Outcome;

// A miss whose parts are not refused: decided, and carried out. Refusal 5 changes nothing.
fn on_miss(policy: &[u8], key: &[u8], keeper: &mut [u8], out: &mut [u8]) -> Result<Outcome, Refusal>
    requires { FineMiss policy.now key.now keeper.old }
    ensures { OnMiss policy.now key.now keeper.old out.old result
        keeper.new out.new }
{
    crate::carry::carry_out(crate::decide::decide_miss(policy, key, keeper), keeper, out)
}

// A miss arrives: refusals 1, 2 and 3 of the policy, 1 of the key, 4 of the keeper, then 5; a refusal changes nothing.
pub fn miss(
    policy: &[u8],
    key: &[u8],
    keeper: &mut [u8],
    out: &mut [u8],
) -> Result<Outcome, Refusal>
    ensures { Missed policy.now key.now keeper.old out.old result
        keeper.new out.new }
{
    policy::lent::check_lent(policy, key, keeper)?;
    on_miss(policy, key, keeper, out)
}
