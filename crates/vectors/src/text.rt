// The words of the table as bytes and numbers.
use std::alloc::{AllocError, Global};

// A digit in hex; what the library reads may be a capital letter too.
fn digit(b: u8) -> Option<u8> {
    match b {
        b'0'..=b'9' => Some(b - b'0'),
        b'a'..=b'f' => Some(b - b'a' + 10),
        _ => None,
    }
}

// The byte of two digits in hex.
fn hex_byte(digits: &[u8]) -> Option<u8> {
    let [high, low] = digits else {
        return None;
    };
    Some((digit(*high)? << 4) | digit(*low)?)
}

// The bytes that a word gives in hex, two digits to a byte, or none if it does not.
pub fn hex_bytes(heap: Global, word: &str) -> Result<Option<Vec<u8>>, AllocError> {
    word.as_bytes()
        .chunks(2)
        .map(hex_byte)
        .collect::<Option<Vec<u8>>>(heap)
}

// A number with one more byte behind its bytes.
fn with_byte(n: u64, b: u8) -> u64 {
    n.wrapping_mul(256).wrapping_add(u64::from(b))
}

// The number whose bytes these are, most significant byte first.
pub fn number(bytes: &[u8]) -> u64 {
    bytes.iter().fold(0, |n, b| with_byte(n, *b))
}

// The number of an address: bytes with a character between.
fn address<F: Fn(&str) -> Option<u8>>(word: &str, between: char, byte: F) -> Option<u64>
    requires { F.IsAlwaysCallable byte }
{
    word.split(between)
        .try_fold(0, |n, group| Some(with_byte(n, byte(group)?)))
}

// What a word of the table stands for: a dash for a field that is not there, an address, or a number.
pub fn value(word: &str) -> Option<u64> {
    if word == "-" {
        return Some(0);
    }
    if word.contains(':') {
        return address(word, ':', |group| u8::from_str_radix(group, 16).ok());
    }
    if word.contains('.') {
        return address(word, '.', |group| group.parse::<u8>().ok());
    }
    match word.strip_prefix("0x") {
        Some(digits) => u64::from_str_radix(digits, 16).ok(),
        None => word.parse::<u64>().ok(),
    }
}
