// The pattern of a key, two arrays by value as docs/SENTENCES.md names the form: its match, and its overlap with another.
ghost use Rattle.std.specs.Prelude.{◌≡◌};
ghost use Rattle.model.specs.Pattern.{matches as matches_at, overlap as overlap_at};
ghost use Rattle.ternary.specs.Sizes.{positions};

use crate::{KEY_SIZE, Pattern};

// Whether the pattern takes the key.
pub fn matches(pattern: Pattern, key: [u8; KEY_SIZE]) -> bool
    ensures { result ≡ matches_at positions pattern.value pattern.mask key }
{
    crate::matches_row(&pattern.value, &pattern.mask, &key)
}

// Whether no position is exact in both patterns with different values.
pub fn overlap(a: Pattern, b: Pattern) -> bool
    ensures { result ≡ overlap_at positions a.value a.mask b.value b.mask }
{
    crate::overlap_rows(&a.value, &a.mask, &b.value, &b.mask)
}
