// What test programs print of an answer. No contract can speak of it. That standard output can't be written is told by `unless_refused` alone; where
// the others can't write, what comes later is still tried.
ghost use Rattle.std.specs.Prelude.{◌≡◌, IfOk};

use checks::refusal::Refusal;
use std::{fmt, io};

// What every byte of an output is before a call.
pub const UNTOUCHED: u8 = 238;

// Why there is no more to say of a call.
#[derive(Drop)]
pub enum Stop {
    Refused(Refusal),
    // Standard output can't be written.
    Unwritten(io::Error),
}

impl From<Refusal> for Stop {
    ghost use Rattle.std.specs.Prelude.{◌≡◌};
    ghost use Rattle.test_cases.specs.declared.say.Stop.TheVariants.{Refused};

    ghost from_gives = { λ refusal stop. stop ≡ Refused refusal };

    fn from(refusal: Refusal) -> Stop {
        Stop::Refused(refusal)
    }
}

impl From<io::Error> for Stop {
    ghost use Rattle.std.specs.Prelude.{◌≡◌};
    ghost use Rattle.test_cases.specs.declared.say.Stop.TheVariants.{Unwritten};

    ghost from_gives = { λ error stop. stop ≡ Unwritten error };

    fn from(error: io::Error) -> Stop {
        Stop::Unwritten(error)
    }
}

// Bytes that are printed as two digits each.
#[derive(Clone, Copy)]
pub struct Hex<'a>(pub &'a [u8]);

impl fmt::Display for Hex<'_> {
    fn fmt<W: fmt::Write>(&self, f: &mut fmt::Formatter<W>) -> fmt::Result {
        for byte in self.0 {
            write!(f, "{byte:02x}")?;
        }
        Ok(())
    }
}

// The bytes as they are.
pub fn say(rt: &impl Print, text: &[u8]) {
    let _ = rt.write_all(text);
}

// What a `format_args!` gives, or another value that is printed.
pub fn say_text(rt: &impl Print, text: impl fmt::Display + Drop) {
    let _ = rt.print(text);
}

pub fn say_refused(rt: &impl Print, refusal: Refusal) {
    say_text(rt, format_args!(" {refusal}"));
}

// What a call comes to; a refusal is said, and comes to the default. That it can't be said, or that the call stopped for that, is told.
pub fn unless_refused<T: Default + Drop>(rt: &impl Print, answer: Result<T, Stop>) -> io::Result<T>
    ensures { IfOk answer (λ value. result ≡ Ok value) }
{
    match answer {
        Ok(value) => Ok(value),
        Err(Stop::Refused(refusal)) => {
            print!(rt; " {refusal}")?;
            Ok(T::default())
        }
        Err(Stop::Unwritten(error)) => Err(error),
    }
}

// The same, the value itself; that a refusal can't be said is not told.
pub fn value_unless_refused<T: Default + Drop>(rt: &impl Print, answer: Result<T, Refusal>) -> T
    ensures { IfOk answer (λ value. result ≡ value) }
{
    match answer {
        Ok(value) => value,
        Err(refusal) => {
            say_refused(rt, refusal);
            T::default()
        }
    }
}

// Says so where a byte of an output, the n-th or a later one, is not as it was.
pub fn say_kept(rt: &impl Print, out: &[u8], n: usize) {
    if out.iter().skip(n).any(|byte| *byte != UNTOUCHED) {
        say(rt, b" changed");
    }
}
