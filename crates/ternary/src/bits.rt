// The bits of a pattern: counted, and one fixed; value bits under wildcards.
ghost use Rattle.std.specs.Prelude.{◌≡◌, ◌<◌, length};
ghost use Rattle.model.specs.Pattern.{first_stray, wildcards as wildcards_at};
ghost use Rattle.ternary.specs.Sizes.{positions};
ghost use Rattle.ternary.specs.Counts.{exact_bits};
ghost use Rattle.ternary.specs.Fixed.{Fixed};

use crate::{KEY_SIZE, POSITIONS, Pattern};

// The lowest byte of the value that has a bit under a wildcard.
pub fn first_stray(value: &[u8], mask: &[u8]) -> Option<usize>
    requires { length mask.now ≡ length value.now }
    ensures { result ≡ first_stray (length value.now) value.now mask.now }
{
    value
        .iter()
        .zip(mask)
        .position(|(byte, exact)| byte & !exact != 0)
}

// The exact bits: the ones of the mask, summed over its bytes.
pub fn exact_bits(mask: [u8; KEY_SIZE]) -> usize
    ensures { result ≡ exact_bits positions mask }
{
    // A cast: no usize::from takes a u32.
    mask.iter().map(|byte| byte.count_ones() as usize).sum()
}

// The wildcard bits: the positions less the ones of the mask.
pub fn wildcard_bits(mask: [u8; KEY_SIZE]) -> usize
    ensures { result ≡ wildcards_at positions mask }
{
    POSITIONS - exact_bits(mask)
}

// The pattern with position p made exact at the key's bit.
pub fn fix_bit(pattern: Pattern, key: [u8; KEY_SIZE], p: usize) -> Pattern
    requires { p < positions }
    ensures { Fixed pattern.value pattern.mask key p result.value result.mask }
{
    let i = p / 8;
    let one: u8 = 128 >> (p % 8);
    let mut fixed = pattern;
    // Of the byte's bits only that at p is taken from the key.
    fixed.value[i] ^= (fixed.value[i] ^ key[i]) & one;
    fixed.mask[i] |= one;
    fixed
}
