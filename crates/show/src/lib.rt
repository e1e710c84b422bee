// Showing the decision: the record that decides for a key, lent back from the buffer that holds it.
#![tactic(auto)]

ghost use Rattle.std.specs.Prelude.{◌≡◌};
ghost use Rattle.show.specs.Answers.{show_answer, shown_part};

use checks::refusal::Refusal;
use policy::search::best_rule;
use records::layout;
use slots::find::first_slot_for;

// Where the record that decides lies: the slot of that number in the table, or the rule of that number in the policy.
#[derive(Clone, Copy, Debug, PartialEq, Eq)]
pub enum Source {
    Table(u16),
    Policy(u16),
}

// Which record decides for a key, if one does: refusals 1, 2 and 3 of the policy, 1 of the key, 4 of the table. It counts no hit and changes
// nothing.
pub fn show_answer(policy: &[u8], key: &[u8], table: &[u8]) -> Result<Option<Source>, Refusal>
    ensures { result ≡ show_answer policy.now key.now table.now }
{
    policy::lent::check_lent(policy, key, table)?;
    if let Some(i) = first_slot_for(table, key) {
        // A cast: no u16::from takes a usize.
        return Ok(Some(Source::Table(i as u16)));
    }
    Ok(best_rule(policy, key).map(|best| Source::Policy(best.number)))
}

// The record that decides, as a part of the buffer that `show_answer` names; the empty part where it names none,
// and no `Option`: `shown_part` promises it.
pub fn show<'a>(policy: &'a [u8], key: &[u8], table: &'a [u8]) -> &'a [u8]
    ensures { result.now ≡ shown_part policy.now key.now table.now }
{
    match show_answer(policy, key, table) {
        Ok(Some(Source::Table(i))) => {
            let at = layout::SLOT_SIZE * usize::from(i);
            &table[at..at + layout::SLOT_SIZE]
        }
        Ok(Some(Source::Policy(number))) => {
            let at = layout::RULE_SIZE * usize::from(number);
            &policy[at..at + layout::RULE_SIZE]
        }
        Ok(None) => &policy[0..0],
        Err(_) => &policy[0..0],
    }
}
