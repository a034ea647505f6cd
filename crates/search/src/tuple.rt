// The search in a tuple.
ghost use Rattle.std.specs.Prelude.{◌≡◌, ◌-◌, ◌<◌, ◌&&◌, length, bit_and, bit_or, bit_xor, zip};
ghost use Rattle.std.specs.List.{fold};
ghost use Rattle.std.specs.Option.{option_map};
ghost use Rattle.std.specs.Str.{bytes_eq};
ghost use Rattle.flow.specs.Masks.{covered};
ghost use Rattle.search.specs.Best.{best, best_place, numbered, covering, fitting};
ghost use Rattle.search.specs.Buckets.{home, Indexed};
ghost use Rattle.search.specs.Searches.{stepped, marking, Below, seen};

use crate::element::Element;
use crate::hash::KeyHash;
use crate::index::Index;

// An owner's slots with their index. That the index is that of the slots is asked by each search: as a fact of the type, over
// its bounds, it would keep tuples out of callers' structs whose parameter the elements are made of.
#[derive(Drop)]
pub struct Tuple<'a, E, H> {
    pub slots: &'a [E],
    pub index: &'a Index<H>,
}

// A slot that was found.
#[derive(Drop)]
struct Hit<'a, E> {
    place: usize,
    element: &'a E,
}

// The bits of a byte in which a row's mask differs from the mask, or its value from the key's bits under the mask.
fn apart(own: u8, value: u8, mask: u8, key: u8) -> u8
    ensures { result ≡ bit_or (bit_xor own mask) (bit_xor (bit_and mask key) value) }
{
    (own ^ mask) | ((mask & key) ^ value)
}

// The bits in which a row's mask differs from the mask, and its value from the key's bits under the mask, gathered
// from all bytes.
#[inline(always)]
fn differing(own: &[u8; 36], value: &[u8; 36], mask: &[u8; 36], key: &[u8; 36]) -> u8
    ensures { result ≡ fold (λ d p. bit_or d (bit_or (bit_xor p.0.0.0 p.0.1) (bit_xor (bit_and p.0.1 p.1) p.0.0.1))) 0 (zip (zip (zip own.now value.now) mask.now) key.now) }
{
    // with no exit on the way the compiler takes many bytes at once
    own.iter()
        .zip(value)
        .zip(mask)
        .zip(key)
        .fold(0, |differ, (((own, value), mask), key)| {
            differ | apart(*own, *value, *mask, *key)
        })
}

// Whether a row has the mask, and its value covers the key.
fn row_fits(own: &[u8; 36], value: &[u8; 36], mask: &[u8; 36], key: &[u8; 36]) -> bool
    ensures { result ≡ (bytes_eq own.now mask.now && covered mask.now value.now key.now) }
{
    differing(own, value, mask, key) == 0
}

// Whether the element has the mask and covers the key.
fn fits<E: Element>(element: &E, mask: &[u8; 36], key: &[u8; 36]) -> bool
    ensures { result ≡ covering E.Element.masks E.Element.values mask.now key.now element.now }
{
    row_fits(element.mask(), element.value(), mask, key)
}

// The better of the best so far and a later slot.
fn next<'b, E: Element>(
    top: Option<Hit<'b, E>>,
    place: usize,
    element: &'b E,
    mask: &[u8; 36],
    key: &[u8; 36],
) -> Option<Hit<'b, E>>
    ensures { option_map seen result ≡ stepped (λ x. E.Element.level x.1) (λ x. covering E.Element.masks E.Element.values mask.now key.now x.1) (option_map seen top.entry) (place, element.now) }
{
    if !fits(element, mask, key) {
        return top;
    }
    match top {
        Some(best) if element.rank() < best.element.rank() => Some(best),
        _ => Some(Hit { place, element }),
    }
}

// The bits without the lowest that is set.
fn without_lowest(bits: u128) -> u128
    requires { 0 < bits }
    ensures { result ≡ bit_and bits (bits - 1) }
{
    bits & (bits - 1)
}

// The best of the slots whose bits are set.
fn best_of<'b, E: Element>(
    slots: &'b [E],
    set: u128,
    mask: &[u8; 36],
    key: &[u8; 36],
) -> Option<Hit<'b, E>>
    requires { Below set (length slots.now) }
    ensures { option_map seen result ≡ best (λ x. E.Element.level x.1) (marking set (covering E.Element.masks E.Element.values mask.now key.now)) (numbered 0 slots.now) }
{
    let mut left = set;
    let mut top: Option<Hit<'b, E>> = None;
    while left != 0 {
        let place = left.trailing_zeros() as usize;
        top = next(top, place, &slots[place], mask, key);
        left = without_lowest(left);
    }
    top
}

impl<'a, E: Element, H: KeyHash> Tuple<'a, E, H> {
    // The slot of highest rank that fits.
    fn hit(&self, mask: &[u8; 36], key: &[u8; 36]) -> Option<Hit<'a, E>>
        requires { Indexed E.Element.may (home H.KeyHash.hash E.Element.masks E.Element.values) self.now.slots.now self.now.index.now.buckets }
        ensures place { option_map seen result ≡ best (λ x. E.Element.level x.1) (λ x. fitting E.Element.may E.Element.masks E.Element.values mask.now key.now x.1) (numbered 0 self.now.slots.now) }
        ensures element { option_map (λ h. h.element.now) result ≡ best E.Element.level (fitting E.Element.may E.Element.masks E.Element.values mask.now key.now) self.now.slots.now }
    {
        best_of(self.slots, self.index.slots_of(mask, key), mask, key)
    }

    // The answer of the element of highest rank that may answer, has the mask and covers the key; of several of the
    // same rank, of the last.
    pub fn find(&self, mask: &[u8; 36], key: &[u8; 36]) -> Option<E::Answer>
        requires { Indexed E.Element.may (home H.KeyHash.hash E.Element.masks E.Element.values) self.now.slots.now self.now.index.now.buckets }
        ensures { result ≡ option_map E.Element.says (best E.Element.level (fitting E.Element.may E.Element.masks E.Element.values mask.now key.now) self.now.slots.now) }
    {
        // by a match: with `map` a find over 16 tuples takes 224 ns and not 179
        match self.hit(mask, key) {
            Some(hit) => Some(hit.element.answer()),
            None => None,
        }
    }

    // The place of that element.
    pub fn find_place(&self, mask: &[u8; 36], key: &[u8; 36]) -> Option<usize>
        requires { Indexed E.Element.may (home H.KeyHash.hash E.Element.masks E.Element.values) self.now.slots.now self.now.index.now.buckets }
        ensures { result ≡ best_place E.Element.level (fitting E.Element.may E.Element.masks E.Element.values mask.now key.now) self.now.slots.now }
    {
        self.hit(mask, key).map(|hit| hit.place)
    }
}
