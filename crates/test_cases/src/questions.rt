// The questions of a file of cases, one after the other.
ghost use Rattle.std.specs.Prelude.{◌≡◌, ◌-◌, ◌≤◌, ◌<◌, length};
ghost use Rattle.std.specs.Iterator.{at_most};
ghost use Rattle.test_cases.specs.Cases.{question_at, label_of, GivesQuestion};

use crate::parts::{byte, part};

// How a question is laid out: a record of `header` bytes, a label, and what comes after the label; the lengths of these two are the record's byte
// at `lengths` and the byte after it.
#[derive(Clone, Copy, PartialEq, Eq, Debug)]
pub struct Layout {
    pub header: usize,
    pub lengths: usize,
}

impl Layout {
    // The question that begins at `at`; the empty part where the file ends before.
    #[tactic(auto, unfolding(crate::specs::Cases::question_at, crate::specs::Cases::part_in))]
    pub fn question(self, cases: &[u8], at: usize) -> &[u8]
        requires { (self.header < 256) × (self.lengths < 256) }
        ensures value { result.now ≡ question_at self.header self.lengths at cases.now }
        ensures within { length result.now ≤ length cases.now - at }
    {
        let record = part(cases, at, self.header);
        let label = usize::from(byte(record, self.lengths));
        let after = usize::from(byte(record, self.lengths + 1));
        part(cases, at, self.header + label + after)
    }

    // A question's label.
    #[tactic(auto, unfolding(crate::specs::Cases::label_of))]
    pub fn label(self, question: &[u8]) -> &[u8]
        ensures { result.now ≡ label_of self.header self.lengths question.now }
    {
        let length = usize::from(byte(question, self.lengths));
        part(question, self.header, length)
    }

    // Each question of a file, up to the first that the file ends before.
    pub fn questions(self, cases: &[u8]) -> Questions<'_>
        requires { (self.header < 256) × (self.lengths < 256) }
        ensures layout { result.layout ≡ self }
        ensures file { result.cases.now ≡ cases.now }
        ensures begin { result.at ≡ 0 }
    {
        Questions {
            layout: self,
            cases,
            at: 0,
        }
    }
}

// The questions that begin at `at` or later.
#[derive(Drop)]
pub struct Questions<'a> {
    layout: Layout,
    cases: &'a [u8],
    at: usize,
    ghost narrow: { (layout.header < 256) × (layout.lengths < 256) },
}

impl<'a> Iterator for Questions<'a> {
    type Item = &'a [u8];

    ghost next_gives = { λ s one t.
        (t.layout ≡ s.layout)
        × (t.cases.now ≡ s.cases.now)
        × GivesQuestion s.layout.header s.layout.lengths s.cases.now s.at one t.at };

    ghost remaining = { λ s. at_most (length s.cases.now - s.at) };

    fn next(&mut self) -> Option<&'a [u8]> {
        let question = self.layout.question(self.cases, self.at);
        if question.is_empty() {
            return None;
        }
        self.at += question.len();
        Some(question)
    }
}
