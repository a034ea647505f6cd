// Elements made of another and of tuples, and a struct that holds a tuple.
ghost use Rattle.std.specs.Prelude.{◌≡◌, ◌<◌, true, length, Some};
ghost use Rattle.std.specs.List.{slice_get};
ghost use Rattle.std.specs.Option.{option_map};
ghost use Rattle.callers.specs.declared.tuples.Nested.{out-Nested};

use search::{ByteSum, Element, Tuple};

// An element that answers as another does.
#[derive(Drop)]
pub struct Passed<E: Element> {
    one: E,
}

impl<E: Element> Element for Passed<E> {
    type Answer = E::Answer;

    ghost level = { λ s. E.Element.level s.one };

    ghost may = { λ s. E.Element.may s.one };

    ghost masks = { λ s. E.Element.masks s.one };

    ghost values = { λ s. E.Element.values s.one };

    ghost says = { λ s. E.Element.says s.one };

    fn rank(&self) -> u16 {
        self.one.rank()
    }

    fn may_answer(&self) -> bool {
        self.one.may_answer()
    }

    fn mask(&self) -> &[u8; 36] {
        self.one.mask()
    }

    fn value(&self) -> &[u8; 36] {
        self.one.value()
    }

    fn answer(&self) -> E::Answer {
        self.one.answer()
    }
}

// A tuple of such elements.
#[derive(Drop)]
pub struct Held<'a, E: Element> {
    pub tuple: Tuple<'a, Passed<E>, ByteSum>,
}

// An element that may hold a tuple of its own kind.
#[derive(Drop)]
#[cycle(nested)]
pub struct Nested<'a> {
    pub rank: u16,
    pub mask: [u8; 36],
    pub value: [u8; 36],
    pub below: Option<Tuple<'a, Nested<'a>, ByteSum>>,
}

impl<'a> Element for Nested<'a> {
    type Answer = u16;

    ghost level = { λ s. (out-Nested s).rank };

    ghost may = { λ _. true };

    ghost masks = { λ s. (out-Nested s).mask };

    ghost values = { λ s. (out-Nested s).value };

    ghost says = { λ s. (out-Nested s).rank };

    fn rank(&self) -> u16 {
        self.rank
    }

    fn may_answer(&self) -> bool {
        true
    }

    fn mask(&self) -> &[u8; 36] {
        &self.mask
    }

    fn value(&self) -> &[u8; 36] {
        &self.value
    }

    fn answer(&self) -> u16 {
        self.rank
    }
}

// How many slots one of some tuples has.
pub fn slots_at<'a, E: Element>(tuples: &[Tuple<'a, E, ByteSum>], at: usize) -> usize
    requires { at < length tuples.now }
    ensures { option_map (λ t. length t.slots.now) (slice_get tuples.now at) ≡ Some result }
{
    tuples[at].slots.len()
}
