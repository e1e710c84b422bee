// Rows of layout::KEY_SIZE bytes in a buffer, and patterns: two rows that follow one another.
ghost use Rattle.std.specs.Prelude.{◌≡◌, ◌+◌, ◌≤◌, length};
ghost use Rattle.buffers.specs.Parts.{part};
ghost use Rattle.ternary.specs.Sizes.{key_size};

use crate::layout;
use ternary::Pattern;

// The row that begins at `at`.
pub fn row_at(s: &[u8], at: usize) -> [u8; layout::KEY_SIZE]
    requires { at + key_size ≤ length s.now }
    ensures { result ≡ part key_size at s.now }
{
    buffers::bytes_at(s, at)
}

// The rows of the pattern that begins at `at`, where they lie: its value, then its mask.
pub fn rows_at(s: &[u8], at: usize) -> (&[u8], &[u8])
    requires { at + (key_size + key_size) ≤ length s.now }
    ensures { (result.0.now ≡ part key_size at s.now) × (result.1.now ≡ part key_size (at + key_size) s.now) }
{
    let mask = at + layout::KEY_SIZE;
    (&s[at..mask], &s[mask..mask + layout::KEY_SIZE])
}

// The pattern that begins at `at`: its value, then its mask.
pub fn pattern_at(s: &[u8], at: usize) -> Pattern
    requires { at + (key_size + key_size) ≤ length s.now }
    ensures { (result.value ≡ part key_size at s.now) × (result.mask ≡ part key_size (at + key_size) s.now) }
{
    let value = row_at(s, at);
    let mask = row_at(s, at + layout::KEY_SIZE);
    Pattern { value, mask }
}
