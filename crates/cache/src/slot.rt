// The slots of a cache level.
ghost use Rattle.cache.specs.Slots.{answering, mask_of, value_of, answer_of};

use search::Element;

// The mask and the value are plain bytes; no value bit lies outside the mask.
#[derive(Clone, Copy)]
pub struct Entry {
    // a suspect entry does not answer
    pub suspect: bool,
    pub mask: [u8; 36],
    pub value: [u8; 36],
    pub ports: u64,
    // the mask that the entry answers with
    pub answer: [u8; 36],
    // the frames that the entry answered and that the level below has not been told of, modulo 2^64
    pub held: u64,
}

// A slot, and its entry where it is filled.
#[derive(Clone, Copy)]
pub struct Slot {
    // the slot's own number
    pub place: u8,
    pub entry: Option<Entry>,
}

// What an entry answers: its ports, and the slot in which its answer mask lies.
#[derive(Clone, Copy)]
pub struct Answer {
    pub ports: u64,
    pub place: u8,
}

// The mask and the value of a slot that is not filled.
static NO_BIT: [u8; 36] = [0; 36];

// Entries are the elements of a search: an entry that is not suspect may answer, and all have rank 0.
impl Element for Slot {
    type Answer = Answer;

    ghost level = { λ _. 0 };

    ghost may = { answering };

    ghost masks = { mask_of };

    ghost values = { value_of };

    ghost says = { answer_of };

    fn rank(&self) -> u16 {
        0
    }

    fn may_answer(&self) -> bool {
        self.entry.is_some_and(|entry| !entry.suspect)
    }

    #[tactic(auto, unfolding(flow::specs::Masks::empty_mask))]
    fn mask(&self) -> &[u8; 36] {
        self.entry.as_ref().map_or(&NO_BIT, |entry| &entry.mask)
    }

    #[tactic(auto, unfolding(flow::specs::Masks::empty_mask))]
    fn value(&self) -> &[u8; 36] {
        self.entry.as_ref().map_or(&NO_BIT, |entry| &entry.value)
    }

    fn answer(&self) -> Answer {
        Answer {
            ports: self.entry.as_ref().map_or(0, |entry| entry.ports),
            place: self.place,
        }
    }
}
