// Parts of a file of cases, and numbers in it.
ghost use Rattle.std.specs.Prelude.{◌≡◌, ◌+◌, ◌<◌, get_or};
ghost use Rattle.test_cases.specs.Cases.{part_in, bytes_in, number_at, part_of};

// The part of `s` of n bytes that begins at `from`; the empty part where `s` ends before, and no `None`: `part_in` states it so.
#[tactic(auto, unfolding(crate::specs::Cases::part_in))]
pub fn part(s: &[u8], from: usize, n: usize) -> &[u8]
    ensures { result.now ≡ part_in from n s.now }
{
    s.get(from..).and_then(|rest| rest.get(..n)).unwrap_or(&[])
}

// The N bytes at `at`; zeros where `s` ends before, and no `None`: `number_at` states that such a number is 0.
#[tactic(auto, using(crate::proofs::CaseLaws::first_bytes, crate::proofs::CaseLaws::no_bytes))]
pub fn bytes_at<const N: usize>(s: &[u8], at: usize) -> [u8; N]
    ensures { result ≡ bytes_in at N s.now }
{
    match part(s, at, N).first_chunk() {
        Some(bytes) => *bytes,
        None => [0; N],
    }
}

// The number of four bytes at `at`.
#[tactic(auto, using(crate::proofs::CaseLaws::spells_number))]
pub fn number(s: &[u8], at: usize) -> usize
    ensures { result ≡ number_at at s.now }
{
    // A cast: no usize::from takes a u32.
    u32::from_be_bytes(bytes_at(s, at)) as usize
}

// The part of `s` whose place is the number at `at` of a question, and whose length the number after it.
#[tactic(auto, unfolding(crate::specs::Cases::part_of))]
pub fn part_of<'a>(s: &'a [u8], question: &[u8], at: usize) -> &'a [u8]
    requires { at + 4 < 256 }
    ensures { result.now ≡ part_of s.now question.now at }
{
    part(s, number(question, at), number(question, at + 4))
}

// The byte at `at`; 0 where `s` ends before, and no `None`: its contract, `get_or` with 0, states it so.
pub fn byte(s: &[u8], at: usize) -> u8
    ensures { result ≡ get_or s.now at 0 }
{
    s.get(at).copied().unwrap_or(0)
}
