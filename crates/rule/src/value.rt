// The values and masks of fields as a rule writes them.
ghost use Rattle.std.specs.Prelude.{◌≡◌, ◌+◌, ◌<◌, true, length};
ghost use Rattle.numeral.specs.Numbers.{number_of};
ghost use Rattle.rule.specs.Forms.{full_of};
ghost use Rattle.rule.specs.Values.{pushed, pair_at, mac_shape, mac_of, four_of, quad_of, value_of, prefix_of, prefix_or_quad, mask_of, up_to, pairs_of, row_of};

use super::field::Form;
use super::parts::cut;
use numeral::hex::pair;
use numeral::number::number;

// A number with one byte more at its end.
fn push(n: Option<u64>, b: Option<u8>) -> Option<u64>
    ensures { result ≡ pushed n b }
{
    n.zip(b).map(|(n, b)| (n << 8) + u64::from(b))
}

// The byte that the two characters at a place write.
fn byte(text: &[u8], i: usize) -> Option<u8>
    requires { i + 1 < length text.now }
    ensures { result ≡ pair_at text.now i }
{
    pair(i, text[i], text[i + 1]).ok()
}

// Whether a text has 17 characters, with colons behind each second digit.
fn has_colons(text: &[u8]) -> bool
    ensures value { result ≡ mac_shape text.now }
    ensures len { result ≡ true → length text.now ≡ 17 }
{
    text.len() == 17
        && text[2] == b':'
        && text[5] == b':'
        && text[8] == b':'
        && text[11] == b':'
        && text[14] == b':'
}

// Six bytes with colons between, as a number of 48 bits.
fn mac(text: &[u8]) -> Option<u64>
    ensures { result ≡ mac_of text.now }
{
    if !has_colons(text) {
        return None;
    }
    let n = push(Some(0), byte(text, 0));
    let n = push(n, byte(text, 3));
    let n = push(n, byte(text, 6));
    let n = push(n, byte(text, 9));
    let n = push(n, byte(text, 12));
    push(n, byte(text, 15))
}

// The number of four bytes that words write.
fn four(a: &str, b: &str, c: &str, d: &str) -> Option<u64>
    ensures { result ≡ four_of a.now b.now c.now d.now }
{
    let n = push(Some(0), number(a));
    let n = push(n, number(b));
    let n = push(n, number(c));
    push(n, number(d))
}

// Four numbers of a byte with dots between, as a number of 32 bits.
fn quad(text: &str) -> Option<u64>
    ensures { result ≡ quad_of text.now }
{
    let (a, rest) = cut(text, '.')?;
    let (b, rest) = cut(rest, '.')?;
    let (c, d) = cut(rest, '.')?;
    four(a, b, c, d)
}

// The number where it is not above the largest.
fn held(form: Form, n: Option<u64>) -> Option<u64>
    ensures { result ≡ up_to (full_of form) n }
{
    let full = form.full();
    n.filter(|n| *n <= full)
}

// The number that a text writes in this form.
fn written(form: Form, text: &str) -> Option<u64>
    ensures { result ≡ value_of form text.now }
{
    match form {
        Form::Byte | Form::Word => number(text),
        Form::Quad => quad(text),
        Form::Mac => mac(text.as_bytes()),
    }
}

// The value that a text writes in this form.
pub(crate) fn value(form: Form, text: &str) -> Option<u64>
    ensures { result ≡ up_to (full_of form) (value_of form text.now) }
{
    held(form, written(form, text))
}

// A mask of 32 bits whose first so many are set.
fn prefix(bits: u64) -> Option<u64>
    ensures { result ≡ prefix_of bits }
{
    if bits > 32 {
        return None;
    }
    Some(0xffff_ffff - (0xffff_ffffu64 >> bits))
}

// A prefix's length, or else four bytes.
fn quad_mask(text: &str) -> Option<u64>
    ensures { result ≡ prefix_or_quad (number_of text.now) text.now }
{
    match number(text) {
        Some(bits) => prefix(bits),
        None => quad(text),
    }
}

// The mask that a text writes: for an address of IPv4 the length of a prefix too.
pub(crate) fn mask(form: Form, text: &str) -> Option<u64>
    ensures { result ≡ up_to (full_of form) (mask_of form text.now) }
{
    match form {
        Form::Quad => held(form, quad_mask(text)),
        _ => value(form, text),
    }
}

// 36 bytes of 72 hexadecimal digits.
pub(crate) fn row(text: &[u8]) -> Option<[u8; 36]>
    ensures { result ≡ row_of text.now }
{
    if text.len() != 72 {
        return None;
    }
    let (pairs, _) = text.as_chunks::<2>();
    let mut row = [0; 36];
    // by its index: what a loop over `iter_mut` leaves in the row is not known to a proof
    for (i, [a, b]) in pairs.iter().enumerate() {
        row[i] = pair(2 * i, *a, *b).ok()?;
    }
    Some(row)
}
