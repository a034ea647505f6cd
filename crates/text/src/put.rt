// Pieces of text, written behind what a buffer holds.
// The functions here ask for room in the buffer, and then cannot fail. They are no `Display`s: one of these may fail at any piece,
// its contract says nothing then, and the line of a key takes three times as long.
ghost use Rattle.std.specs.Prelude.{◌≡◌, ℕ, ◌+◌, ◌*◌, ◌<◌, ◌≤◌, length, vec_len, vec_capacity};
ghost use Rattle.text.specs.Texts.{Appended, hex_digit, hex2, bytes_text, hex_text, flags_text, decimal_text};
ghost use Rattle.refusal.specs.Texts.{refusal_text};

use refusal::Refusal;

pub(crate) fn put(out: &mut Vec<u8>, text: &[u8])
    requires { vec_len out.old + length text.now ≤ vec_capacity out.old }
    ensures items { Appended out.old.items out.new.items text.now }
    ensures len { vec_len out.new ≡ vec_len out.old + length text.now }
    ensures capacity { vec_capacity out.old ≤ vec_capacity out.new }
{
    let _ = out.extend_from_slice(text);
}

pub(crate) fn digit(n: u8) -> u8
    requires { n < 16 }
    ensures { result ≡ hex_digit n }
{
    if n < 10 { b'0' + n } else { b'a' - 10 + n }
}

// A byte as two hexadecimal digits.
pub(crate) fn put_hex2(out: &mut Vec<u8>, b: u8)
    requires { vec_len out.old + 2 ≤ vec_capacity out.old }
    ensures items { Appended out.old.items out.new.items (hex2 b) }
    ensures len { vec_len out.new ≡ vec_len out.old + 2 }
    ensures capacity { vec_capacity out.old ≤ vec_capacity out.new }
{
    put(out, &[digit(b / 16), digit(b % 16)]);
}

// 36 bytes, two digits each.
pub(crate) fn put_row(out: &mut Vec<u8>, row: &[u8; 36])
    requires { vec_len out.old + 72 ≤ vec_capacity out.old }
    ensures items { Appended out.old.items out.new.items (bytes_text row.now) }
    ensures len { vec_len out.new ≤ vec_len out.old + 72 }
    ensures capacity { vec_capacity out.old ≤ vec_capacity out.new }
{
    for byte in row {
        put_hex2(out, *byte);
    }
}

// A 16-bit number, by its two bytes, as four hexadecimal digits.
pub(crate) fn put_hex(out: &mut Vec<u8>, high: u8, low: u8)
    requires { vec_len out.old + 4 ≤ vec_capacity out.old }
    ensures items { Appended out.old.items out.new.items (hex_text high low) }
    ensures len { vec_len out.new ≡ vec_len out.old + 4 }
    ensures capacity { vec_capacity out.old ≤ vec_capacity out.new }
{
    put(
        out,
        &[
            digit(high / 16),
            digit(high % 16),
            digit(low / 16),
            digit(low % 16),
        ],
    );
}

// The low 12 bits of a 16-bit number, by its two bytes, as three hexadecimal digits.
pub(crate) fn put_flags(out: &mut Vec<u8>, high: u8, low: u8)
    requires { vec_len out.old + 3 ≤ vec_capacity out.old }
    ensures items { Appended out.old.items out.new.items (flags_text high low) }
    ensures len { vec_len out.new ≡ vec_len out.old + 3 }
    ensures capacity { vec_capacity out.old ≤ vec_capacity out.new }
{
    put(out, &[digit(high % 16), digit(low / 16), digit(low % 16)]);
}

pub(crate) fn put_decimal(out: &mut Vec<u8>, n: u64)
    requires { vec_len out.old + length (decimal_text n) ≤ vec_capacity out.old }
    ensures items { Appended out.old.items out.new.items (decimal_text n) }
    ensures len { vec_len out.new ≡ vec_len out.old + length (decimal_text n) }
    ensures capacity { vec_capacity out.old ≤ vec_capacity out.new }
{
    if n < 10 {
        out.push_reserved(b'0' + n as u8);
    } else {
        put_decimal(out, n / 10);
        out.push_reserved(b'0' + (n % 10) as u8);
    }
}

// A byte takes three digits at most.
pub(crate) fn put_byte(out: &mut Vec<u8>, n: u8)
    requires { vec_len out.old + 3 ≤ vec_capacity out.old }
    ensures items { Appended out.old.items out.new.items (decimal_text n) }
    ensures len { vec_len out.new ≤ vec_len out.old + 3 }
    ensures capacity { vec_capacity out.old ≤ vec_capacity out.new }
{
    put_decimal(out, u64::from(n));
}

// A 16-bit number, by its two bytes: five digits at most.
pub(crate) fn put_word(out: &mut Vec<u8>, high: u8, low: u8)
    requires { vec_len out.old + 5 ≤ vec_capacity out.old }
    ensures items { Appended out.old.items out.new.items (decimal_text (high * 256 + low)) }
    ensures len { vec_len out.new ≤ vec_len out.old + 5 }
    ensures capacity { vec_capacity out.old ≤ vec_capacity out.new }
{
    put_decimal(out, u64::from(high) * 256 + u64::from(low));
}

// A 64-bit number takes twenty digits at most.
pub(crate) fn put_number(out: &mut Vec<u8>, n: u64)
    requires { vec_len out.old + 20 ≤ vec_capacity out.old }
    ensures items { Appended out.old.items out.new.items (decimal_text n) }
    ensures len { vec_len out.new ≤ vec_len out.old + 20 }
    ensures capacity { vec_capacity out.old ≤ vec_capacity out.new }
{
    put_decimal(out, n);
}

// A refusal's number, and its detail in brackets.
pub(crate) fn put_refusal(out: &mut Vec<u8>, refusal: Refusal)
    requires { vec_len out.old + 34 ≤ vec_capacity out.old }
    ensures items { Appended out.old.items out.new.items (refusal_text refusal.number refusal.detail) }
    ensures len { vec_len out.new ≤ vec_len out.old + 34 }
    ensures capacity { vec_capacity out.old ≤ vec_capacity out.new }
{
    let Refusal { number, detail } = refusal;
    put(out, b"refused ");
    put_byte(out, number);
    put(out, b" (");
    put_number(out, detail);
    put(out, b")");
}
