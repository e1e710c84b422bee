// Bytes of a lent buffer: big-endian numbers read and written in place, and one row of bytes copied into another.
#![tactic(auto)]

ghost use Rattle.std.specs.Prelude.{◌≡◌, ◌+◌, ◌≤◌, length};
ghost use Rattle.buffers.specs.BigEndian.{be, to_be};
ghost use Rattle.buffers.specs.Parts.{part, splice};

// The N bytes at `at`.
pub fn bytes_at<const N: usize>(s: &[u8], at: usize) -> [u8; N]
    requires { at + N ≤ length s.now }
    ensures { result ≡ part N at s.now }
{
    let mut bytes = [0; N];
    bytes.copy_from_slice(&s[at..at + N]);
    bytes
}

// The number of two bytes at `at`. It and that of four bytes, and those that write them below, stay two functions: std has `from_be_bytes` and
// `to_be_bytes` on each type and in no trait, and a trait for them would be longer than the bodies.
pub fn be16(s: &[u8], at: usize) -> u16
    requires { at + 2 ≤ length s.now }
    ensures { result ≡ be (part 2 at s.now) }
{
    u16::from_be_bytes(bytes_at(s, at))
}

// The number of four bytes at `at`.
pub fn be32(s: &[u8], at: usize) -> u32
    requires { at + 4 ≤ length s.now }
    ensures { result ≡ be (part 4 at s.now) }
{
    u32::from_be_bytes(bytes_at(s, at))
}

// Writes all of `src` into `s` from `at` on; every other byte stays.
pub fn put_bytes(s: &mut [u8], at: usize, src: &[u8])
    requires { at + length src.now ≤ length s.old }
    ensures { s.new ≡ splice at src.now s.old }
{
    s[at..at + src.len()].copy_from_slice(src);
}

// Writes a number of two bytes at `at`; every other byte stays.
pub fn put_be16(s: &mut [u8], at: usize, x: u16)
    requires { at + 2 ≤ length s.old }
    ensures { s.new ≡ splice at (to_be 2 x) s.old }
{
    put_bytes(s, at, &x.to_be_bytes());
}

// Writes a number of four bytes at `at`; every other byte stays.
pub fn put_be32(s: &mut [u8], at: usize, x: u32)
    requires { at + 4 ≤ length s.old }
    ensures { s.new ≡ splice at (to_be 4 x) s.old }
{
    put_bytes(s, at, &x.to_be_bytes());
}
