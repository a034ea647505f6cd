// Four slots of a small kind, kept with their index.
ghost use Rattle.std.specs.Prelude.{◌≡◌};
ghost use Rattle.search.specs.Buckets.{home, Indexed};
ghost use Rattle.search.specs.Sums.{byte_sum};

use crate::element::Element;
use crate::hash::ByteSum;
use crate::index::Index;
use crate::tuple::Tuple;

#[derive(Clone, Copy)]
pub struct Entry {
    pub rank: u16,
    pub live: bool,
    pub mask: [u8; 36],
    pub value: [u8; 36],
    pub name: u16,
}

impl Element for Entry {
    type Answer = u16;

    ghost level = { λ e. e.rank };

    ghost may = { λ e. e.live };

    ghost masks = { λ e. e.mask };

    ghost values = { λ e. e.value };

    ghost says = { λ e. e.name };

    fn rank(&self) -> u16 {
        self.rank
    }

    fn may_answer(&self) -> bool {
        self.live
    }

    fn mask(&self) -> &[u8; 36] {
        &self.mask
    }

    fn value(&self) -> &[u8; 36] {
        &self.value
    }

    fn answer(&self) -> u16 {
        self.name
    }
}

#[derive(Drop)]
pub struct Shelf {
    slots: [Entry; 4],
    index: Index<ByteSum>,
    ghost kept: { Indexed (λ e. e.live) (home byte_sum (λ e. e.mask) (λ e. e.value)) slots index.buckets },
}

impl Shelf {
    pub fn new() -> Shelf {
        let free = Entry {
            rank: 0,
            live: false,
            mask: [0; 36],
            value: [0; 36],
            name: 0,
        };
        Shelf {
            slots: [free; 4],
            index: Index::new(ByteSum),
        }
    }

    // Puts a live entry into a slot that holds none.
    pub fn put(&mut self, slot: usize, rank: u16, mask: &[u8; 36], value: &[u8; 36], name: u16) {
        if slot >= 4 || self.slots[slot].live {
            return;
        }
        self.index.put(slot, mask, value);
        self.slots[slot] = Entry {
            rank,
            live: true,
            mask: *mask,
            value: *value,
            name,
        };
    }

    pub fn take(&mut self, slot: usize) {
        if slot >= 4 {
            return;
        }
        let mut entry = self.slots[slot];
        self.index.gone(slot, &entry.mask, &entry.value);
        entry.live = false;
        self.slots[slot] = entry;
    }

    pub fn find(&self, mask: &[u8; 36], key: &[u8; 36]) -> Option<u16> {
        let tuple = Tuple {
            slots: &self.slots,
            index: &self.index,
        };
        tuple.find(mask, key)
    }

    pub fn find_place(&self, mask: &[u8; 36], key: &[u8; 36]) -> Option<usize> {
        let tuple = Tuple {
            slots: &self.slots,
            index: &self.index,
        };
        tuple.find_place(mask, key)
    }
}
