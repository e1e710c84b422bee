// The number of slots that slots.txt gives.
ghost use Rattle.std.specs.Prelude.{◌≡◌};
ghost use Rattle.text.specs.SlotsText.{slots_in};

use records::layout;

// A slots.txt of a number from 1 to 256 and a newline has at most so many bytes.
pub const MOST: usize = 4;

// The number from 1 to 256 that the text is, as a decimal without leading zeros and one newline.
pub fn slot_count(text: &[u8]) -> Option<usize>
    ensures { result ≡ slots_in text.now }
{
    // Before the rest, so that a long text costs no more than a short one.
    if MOST < text.len() {
        return None;
    }
    let digits = text.strip_suffix(b"\n")?;
    // No leading zero, and no sign, which `parse` would take.
    let Some(b'1'..=b'9') = digits.first() else {
        return None;
    };
    let n = std::str::from_utf8(digits).ok()?.parse::<usize>().ok()?;
    if layout::MOST_SLOTS < n {
        return None;
    }
    Some(n)
}
