// Masks, values and keys as plain rows of 36 bytes.
ghost use Rattle.std.specs.Prelude.{◌≡◌, ◌==◌, Decides, bit_and, bit_or, bit_xor, not, position, slice_set, zip};
ghost use Rattle.std.specs.List.{fold};
ghost use Rattle.flow.specs.Masks.{covered, Covers, agreeing, Agree, inside, Within, first_outside, masked, union, empty_mask, overlapping, Overlap};

// The bits in which the key's bits under the mask differ from the value, gathered from all bytes.
#[inline(always)]
fn differing(mask: &[u8; 36], value: &[u8; 36], key: &[u8; 36]) -> u8
    ensures { result ≡ fold (λ d p. bit_or d (bit_xor (bit_and p.0.0 p.1) p.0.1)) 0 (zip (zip mask.now value.now) key.now) }
{
    // with no exit on the way the compiler takes many bytes at once
    mask.iter()
        .zip(value)
        .zip(key)
        .fold(0, |differ, ((m, v), k)| differ | ((m & k) ^ v))
}

// The bits under the mask in which two keys differ, gathered from all bytes.
#[inline(always)]
fn parted(mask: &[u8; 36], a: &[u8; 36], b: &[u8; 36]) -> u8
    ensures { result ≡ fold (λ d p. bit_or d (bit_xor (bit_and p.0.0 p.0.1) (bit_and p.0.0 p.1))) 0 (zip (zip mask.now a.now) b.now) }
{
    mask.iter()
        .zip(a)
        .zip(b)
        .fold(0, |parted, ((m, a), b)| parted | ((m & a) ^ (m & b)))
}

// Whether the mask and the value cover the key: its bits under the mask are the value.
pub fn covers(mask: &[u8; 36], value: &[u8; 36], key: &[u8; 36]) -> bool
    ensures test { result ≡ covered mask.now value.now key.now }
    ensures means { Decides result (Covers mask.now value.now key.now) }
{
    differing(mask, value, key) == 0
}

// Whether two keys agree in the mask's bits.
pub fn agree(mask: &[u8; 36], a: &[u8; 36], b: &[u8; 36]) -> bool
    ensures test { result ≡ agreeing mask.now a.now b.now }
    ensures means { Decides result (Agree mask.now a.now b.now) }
{
    parted(mask, a, b) == 0
}

// Whether `a` has no bit outside `b`.
pub fn within(a: &[u8; 36], b: &[u8; 36]) -> bool
    ensures test { result ≡ inside a.now b.now }
    ensures means { Decides result (Within a.now b.now) }
{
    covers(b, a, a)
}

// The first place at which the value has a bit that the mask lacks.
fn lacking(mask: &[u8; 36], value: &[u8; 36]) -> Option<usize>
    ensures { result ≡ position (λ p. not (bit_and p.0 p.1 == p.1)) (zip mask.now value.now) }
{
    mask.iter().zip(value).position(|(m, v)| m & v != *v)
}

// The first byte of the value that has a bit outside the mask.
pub fn first_outside(mask: &[u8; 36], value: &[u8; 36]) -> Option<usize>
    ensures { result ≡ first_outside mask.now value.now }
{
    lacking(mask, value)
}

// The key's bits under the mask.
pub fn masked(mask: &[u8; 36], key: &[u8; 36]) -> [u8; 36]
    ensures { result ≡ masked mask.now key.now }
{
    let mut bits = *key;
    // by places: what a loop over `bits.iter_mut().zip(mask)` writes no contract tells
    for i in 0..36 {
        bits[i] &= mask[i];
    }
    bits
}

// Adds the mask's bits to `into`.
pub fn union_into(into: &mut [u8; 36], mask: &[u8; 36])
    ensures { into.new ≡ union into.old mask.now }
{
    // by places, as above
    for i in 0..36 {
        into[i] |= mask[i];
    }
}

// The bits of either mask.
pub fn union(a: &[u8; 36], b: &[u8; 36]) -> [u8; 36]
    ensures { result ≡ union a.now b.now }
{
    let mut bits = *a;
    union_into(&mut bits, b);
    bits
}

// The mask with no bit.
pub fn empty_mask() -> [u8; 36]
    ensures { result ≡ empty_mask }
{
    [0; 36]
}

// The row with one byte, if the place is one of the 36.
pub fn one_byte(at: usize, byte: u8) -> [u8; 36]
    ensures { result ≡ slice_set empty_mask at byte }
{
    let mut row = empty_mask();
    if at < 36 {
        row[at] = byte;
    }
    row
}

// Whether two rows overlap: their values agree in the bits that both masks have. Where no value has a bit
// outside its mask, this is so exactly when some key is covered by both.
pub fn overlaps(mask1: &[u8; 36], value1: &[u8; 36], mask2: &[u8; 36], value2: &[u8; 36]) -> bool
    ensures test { result ≡ overlapping mask1.now value1.now mask2.now value2.now }
    ensures means { Within value1.now mask1.now → Within value2.now mask2.now → Decides result (Overlap mask1.now value1.now mask2.now value2.now) }
{
    agree(&masked(mask1, mask2), value1, value2)
}
