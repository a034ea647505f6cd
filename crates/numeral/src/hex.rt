// Bytes as a script writes them: two hexadecimal digits each, with nothing between.
ghost use Rattle.std.specs.Prelude.{◌≡◌, ℕ, ◌+◌, ◌^◌, ◌<◌, IfSome, Some, Ok, MatchResult};
ghost use Rattle.numeral.specs.declared.hex.HexFault.TheVariants.{Memory};
ghost use Rattle.numeral.specs.Hex.{nibble_of, pair_of, hex_of, Refuses};
ghost use Rattle.numeral.specs.HexFaults.{fault_text};

use std::alloc::{AllocFailed, Global};
use std::fmt;

#[derive(Debug, Clone, Copy, PartialEq, Eq)]
pub enum HexFault {
    // there is no memory for the bytes
    Memory,
    // the number of digits, which is odd
    Odd(usize),
    // the place of the first character that is no hexadecimal digit
    Digit(usize),
}

impl fmt::Display for HexFault {
    ghost output = { λ fault. Some (fault_text fault) };

    fn fmt<W: fmt::Write>(&self, f: &mut fmt::Formatter<W>) -> fmt::Result {
        match self {
            HexFault::Memory => write!(f, "no memory"),
            HexFault::Odd(n) => write!(f, "the frame has an odd number of hexadecimal digits, {n}"),
            HexFault::Digit(at) => write!(
                f,
                "no hexadecimal digit in the frame, behind {at} digits"
            ),
        }
    }
}

impl From<AllocFailed<u8>> for HexFault {
    ghost from_gives = { λ _ r. r ≡ Memory };

    fn from(_e: AllocFailed<u8>) -> HexFault {
        HexFault::Memory
    }
}

// The value of a hexadecimal digit.
pub fn nibble(b: u8) -> Option<u8>
    ensures value { result ≡ nibble_of b }
    ensures bound { IfSome result (λ n. n < 16) }
{
    match b {
        b'0'..=b'9' => Some(b - b'0'),
        b'a'..=b'f' => Some(b - b'a' + 10),
        b'A'..=b'F' => Some(b - b'A' + 10),
        _ => None,
    }
}

// The byte that two characters write, of which the first stands at `at`.
pub fn pair(at: usize, a: u8, b: u8) -> Result<u8, HexFault>
    requires { at + 1 < 2 ^ 64 }
    ensures { result ≡ pair_of at (nibble_of a) (nibble_of b) }
{
    let high = nibble(a).ok_or(HexFault::Digit(at))?;
    let low = nibble(b).ok_or(HexFault::Digit(at + 1))?;
    Ok(high * 16 + low)
}

// The bytes that a text writes, or what is wrong with it.
pub fn hex_bytes(heap: Global, text: &[u8]) -> Result<Vec<u8>, HexFault>
    ensures { MatchResult result (λ v. hex_of text.now ≡ Ok v.items) (λ e. Refuses e (hex_of text.now)) }
{
    if text.len() % 2 != 0 {
        return Err(HexFault::Odd(text.len()));
    }
    let (pairs, _) = text.as_chunks::<2>();
    let mut out = Vec::new(heap);
    for (i, [a, b]) in pairs.iter().enumerate() {
        out.push(pair(2 * i, *a, *b)?)?;
    }
    Ok(out)
}
