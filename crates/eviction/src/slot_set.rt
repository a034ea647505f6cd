// Sets of slots 0 to 127.
ghost use Rattle.std.specs.Prelude.{◌≡◌, ◌==◌, ◌^◌, ◌<◌, ◌≤◌, MatchOption};
ghost use Rattle.eviction.specs.Sets.{no_slot, with_slot, without_slot, without_between, Covered, FirstApart};
ghost use Rattle.eviction.specs.Bitmaps.{in_set};

// Bit i stands for slot i.
#[derive(Clone, Copy)]
pub struct SlotSet {
    bits: u128,
    ghost wide: { bits < 2 ^ 128 },
}

impl SlotSet {
    // The set of no slot.
    pub fn empty() -> SlotSet
        ensures { in_set result.bits ≡ no_slot }
    {
        SlotSet { bits: 0 }
    }

    // Whether no slot is in the set.
    pub fn is_empty(self) -> bool
        ensures { result ≡ (self.bits == 0) }
    {
        self.bits == 0
    }

    // Whether the slot is in the set.
    pub fn has(self, slot: u8) -> bool
        ensures { result ≡ in_set self.bits slot }
    {
        slot < 128 && (self.bits >> slot) & 1 == 1
    }

    // The set with the slot.
    pub fn with(self, slot: u8) -> SlotSet
        ensures { in_set result.bits ≡ with_slot (in_set self.bits) slot }
    {
        if slot >= 128 {
            return self;
        }
        SlotSet {
            bits: self.bits | (1 << slot),
        }
    }

    // The set without the slot.
    pub fn without(self, slot: u8) -> SlotSet
        ensures { in_set result.bits ≡ without_slot (in_set self.bits) slot }
    {
        if slot >= 128 {
            return self;
        }
        SlotSet {
            bits: self.bits & !(1 << slot),
        }
    }

    // The set without the slots from the one up to the other.
    pub fn without_between(self, from: u8, to: u8) -> SlotSet
        requires ends { to < 128 }
        requires order { from ≤ to }
        ensures { in_set result.bits ≡ without_between (in_set self.bits) from to }
    {
        SlotSet {
            bits: self.bits & !((1 << to) - (1 << from)),
        }
    }

    // The set without the slots from this one on.
    pub fn below(self, end: u8) -> SlotSet
        requires { end < 128 }
        ensures { in_set result.bits ≡ without_between (in_set self.bits) end 128 }
    {
        SlotSet {
            bits: self.bits & ((1 << end) - 1),
        }
    }

    // The first slot of the set, from one on, that is not in the other set.
    pub fn first_apart(self, other: SlotSet, from: u8) -> Option<u8>
        requires { from < 128 }
        ensures { MatchOption result (Covered (in_set self.bits) (in_set other.bits) from 128) (λ s. FirstApart (in_set self.bits) (in_set other.bits) from s) }
    {
        let left = (self.bits & !other.bits) >> from;
        if left == 0 {
            return None;
        }
        Some(from + left.trailing_zeros() as u8)
    }
}
