// Numbers as text; a line of text.
#![tactic(auto)]

pub mod slots_text;

ghost use Rattle.std.specs.Prelude.{◌≡◌, [], ◌∷◌, ◌++◌, ◌+◌, ◌≤◌, length};
ghost use Rattle.records.specs.Outcomes.{or_nothing};
ghost use Rattle.text.specs.Decimal.{decimal};
ghost use Rattle.text.specs.Line.{word_size, line_size};
ghost use Rattle.text.specs.Words.{or_dash};

use itoa::Buffer;
use lists::list_of::ListOf;
use records::kinds;
use std::marker::Model;

// No number of 64 bits has more decimal digits.
const MOST_DIGITS: usize = 20;

// Five words, each with a space or a newline after it.
pub const LINE_SIZE: usize = 5 * (MOST_DIGITS + 1);

// A line that the program prints. A clause sees its bytes: the places past them hold 0, so lines that say the same are equal.
#[derive(Clone, Copy)]
pub struct Line {
    bytes: ListOf<u8, LINE_SIZE>,
}

impl Model for Line {
    ghost use Rattle.std.specs.Prelude.{◌≡◌, ◌-◌, ℕ, List, length, replicate};
    ghost use Rattle.std.proofs.Common.{sym};
    ghost use Rattle.text.specs.Line.{line_size};

    ghost Value = { List ℕ };

    ghost view = { λ line. line.bytes.items };

    ghost invariant = { λ line. line.bytes.spare ≡ replicate (line_size - length line.bytes.items) 0 };

    ghost inverse = { λ text. record { bytes = record { items = text; spare = replicate (line_size - length text) 0 } } };

    ghost inverse_ok = { λ line h i. record { bytes = record { items = line.bytes.items; spare = sym h i } } };
}

impl Line {
    // The line that says nothing.
    pub fn new() -> Self
        ensures { result ≡ [] }
    {
        Line {
            bytes: ListOf::over(0),
        }
    }

    // Puts a text after what the line says.
    pub fn push_text(&mut self, text: &[u8])
        requires { length self.old + length text.now ≤ line_size }
        ensures { self.new ≡ self.old ++ text.now }
    {
        self.bytes.extend(text);
    }

    // Puts a number and a byte after what the line says.
    #[tactic(auto, using(crate::proofs::DecimalLaws::decimal_is_printed, std::proofs::Common::append_assoc))]
    pub fn push_number(&mut self, n: u64, after: u8)
        requires { length self.old + word_size ≤ line_size }
        ensures text { self.new ≡ self.old ++ (decimal n ++ after ∷ []) }
        ensures room { length self.new ≤ length self.old + word_size }
    {
        self.push_text(Buffer::new().format(n).as_bytes());
        self.bytes.push(after);
    }

    // The same of a rule or a slot; a dash where there is none.
    #[tactic(auto, using(std::proofs::Common::append_assoc), unfolding(crate::specs::Words::or_dash))]
    pub fn push_number_or_dash(&mut self, n: Option<u16>, after: u8)
        requires { length self.old + word_size ≤ line_size }
        ensures text { self.new ≡ self.old ++ (or_dash (or_nothing n) ++ after ∷ []) }
        ensures room { length self.new ≤ length self.old + word_size }
    {
        match n {
            // 65,535 is a dash too: `or_dash` says so of every number.
            Some(n) if n != kinds::NOTHING => self.push_number(u64::from(n), after),
            _ => {
                self.bytes.push(b'-');
                self.bytes.push(after);
            }
        }
    }

    // What the line says.
    pub fn as_bytes(&self) -> &[u8]
        ensures text { result.now ≡ self.now }
        ensures fits { length result.now ≤ line_size }
    {
        self.bytes.as_slice()
    }
}
