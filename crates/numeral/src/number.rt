// Numbers as a script writes them: decimal, or hexadecimal after 0x.
ghost use Rattle.std.specs.Prelude.{◌≡◌, ℕ, ◌≤◌, List, Option};
ghost use Rattle.std.proofs.Common.{lit≤};
ghost use Rattle.numeral.specs.Numbers.{Reads, Writes, read_number, number_of, of_bits};
ghost use Rattle.numeral.specs.Widths.{IsWidth};
ghost use Rattle.numeral.specs.WidthLaws.{narrow, widest};

use std::num::TryFromIntError;

// A type of unsigned numbers that words write.
pub trait Width: TryFrom<u64, Error = TryFromIntError> {
    // the value of a number, where the type has one
    ghost held: { Option ℕ → Option Self };

    // whether a word writes a value
    ghost writes: { List ℕ → Option Self → Type 0 };

    ghost laws: { IsWidth Self.TryFrom.try_from_gives held writes };
}

impl Width for u8 {
    ghost held = { of_bits 8 };

    ghost writes = { Writes 8 };

    ghost laws = { narrow 8 (lit≤ tt) };
}

impl Width for u16 {
    ghost held = { of_bits 16 };

    ghost writes = { Writes 16 };

    ghost laws = { narrow 16 (lit≤ tt) };
}

impl Width for u32 {
    ghost held = { of_bits 32 };

    ghost writes = { Writes 32 };

    ghost laws = { narrow 32 (lit≤ tt) };
}

impl Width for u64 {
    ghost held = { λ o. o };

    ghost writes = { Writes 64 };

    ghost laws = { widest };
}

// The number that digits write, or none where there is another character, no digit, or too large a number.
fn digits(text: &str, radix: u32) -> Option<u64>
    requires { (2 ≤ radix) × (radix ≤ 36) }
    ensures reads { Reads 64 radix text.now result }
    ensures value { result ≡ read_number radix text.now }
{
    if text.starts_with('+') {
        return None;
    }
    u64::from_str_radix(text, radix).ok()
}

// A word's number.
pub fn number<T: Width>(word: &str) -> Option<T>
    ensures writes { T.writes word.now result }
    ensures value { result ≡ T.held (number_of word.now) }
{
    let n = match word.strip_prefix("0x") {
        Some(text) => digits(text, 16)?,
        None => digits(word, 10)?,
    };
    T::try_from(n).ok()
}
