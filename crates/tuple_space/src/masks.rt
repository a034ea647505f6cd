// The masks of the standing rules, each with its rank.
ghost use Rattle.std.specs.Prelude.{◌≡◌, ◌<◌, ◌≤◌, true, [], length, IfOk, nat_lt, position, vec_len, vec_capacity};
ghost use Rattle.std.specs.Str.{bytes_eq};
ghost use Rattle.tuple_space.specs.Changes.{Came, Went};
ghost use Rattle.tuple_space.specs.Tuples.{listed, distinct, same_tuples};
ghost use Rattle.tuple_space.specs.Visits.{ordered};

use crate::ranked_mask::RankedMask;
use std::alloc::{AllocError, Global};

// The tuples in the order in which their masks came to stand, and in the order of visits.
#[derive(Drop)]
pub struct Masks {
    arrived: Vec<RankedMask>,
    visits: Vec<RankedMask>,
    ghost room: { 64 ≤ vec_capacity arrived },
    ghost seats: { 64 ≤ vec_capacity visits },
    ghost few: { length arrived.items ≤ 64 },
    // each mask once
    ghost once: { distinct arrived.items ≡ true },
    ghost sorted: { same_tuples visits.items (ordered [] arrived.items) ≡ true },
}

// The place of the tuple of this mask.
fn place_of(tuples: &[RankedMask], mask: &[u8; 36]) -> Option<usize>
    ensures { result ≡ position (λ t. bytes_eq t.mask mask.now) tuples.now }
{
    tuples.iter().position(|tuple| tuple.mask == *mask)
}

// A rule of this mask and priority came: its tuple's rank is at least the priority, or a tuple arrives.
fn came(tuples: &mut Vec<RankedMask>, mask: &[u8; 36], priority: u16)
    requires once { distinct tuples.old.items ≡ true }
    requires room { vec_len tuples.old < vec_capacity tuples.old }
    ensures is { Came tuples.old.items tuples.new.items mask.now priority }
    ensures room { vec_capacity tuples.old ≤ vec_capacity tuples.new }
{
    match place_of(tuples, mask) {
        Some(place) => {
            let rank = tuples[place].rank.max(priority);
            tuples[place].rank = rank;
        }
        None => {
            // there is room for it
            let _ = tuples.push(RankedMask {
                mask: *mask,
                rank: priority,
            });
        }
    }
}

// A rule of this mask left: its tuple gets the rank of the rules that still have the mask, or leaves too.
fn went(tuples: &mut Vec<RankedMask>, mask: &[u8; 36], rank: Option<u16>)
    requires once { distinct tuples.old.items ≡ true }
    requires there { listed tuples.old.items mask.now ≡ true }
    ensures is { Went tuples.old.items tuples.new.items mask.now rank }
    ensures room { vec_capacity tuples.old ≤ vec_capacity tuples.new }
{
    let Some(place) = place_of(tuples, mask) else {
        return;
    };
    match rank {
        Some(rank) => tuples[place].rank = rank,
        None => {
            tuples.remove(place);
        }
    }
}

// The place of the first tuple of lower rank.
fn lower_place(visits: &[RankedMask], rank: u16) -> Option<usize>
    ensures { result ≡ position (λ t. nat_lt t.rank rank) visits.now }
{
    visits.iter().position(|tuple| tuple.rank < rank)
}

// Puts the tuples in the order of visits.
fn order(arrived: &[RankedMask], visits: &mut Vec<RankedMask>)
    requires few { length arrived.now ≤ 64 }
    requires room { 64 ≤ vec_capacity visits.old }
    ensures ordered { visits.new.items ≡ ordered [] arrived.now }
    ensures room { 64 ≤ vec_capacity visits.new }
{
    visits.clear();
    for tuple in arrived {
        let place = lower_place(visits, tuple.rank).unwrap_or(visits.len());
        // there is room for it
        let _ = visits.insert(place, *tuple);
    }
}

impl Masks {
    // No mask, and room for 64.
    pub fn new(heap: Global) -> Result<Masks, AllocError>
        ensures { IfOk result (λ s. s.arrived.items ≡ []) }
    {
        let arrived = Vec::with_capacity(heap, 64)?;
        let visits = Vec::with_capacity(heap, 64)?;
        Ok(Masks { arrived, visits })
    }

    // The tuples in the order of visits.
    pub fn visits(&self) -> &[RankedMask]
        ensures { result.now ≡ ordered [] self.now.arrived.items }
    {
        &self.visits
    }

    // A rule of this mask and priority came.
    pub fn came(&mut self, mask: &[u8; 36], priority: u16)
        requires { length self.old.arrived.items < 64 }
        ensures { Came self.old.arrived.items self.new.arrived.items mask.now priority }
    {
        came(&mut self.arrived, mask, priority);
        order(&self.arrived, &mut self.visits);
    }

    // A rule of this mask left. The rank is that of the rules that still have the mask.
    pub fn went(&mut self, mask: &[u8; 36], rank: Option<u16>)
        requires { listed self.old.arrived.items mask.now ≡ true }
        ensures { Went self.old.arrived.items self.new.arrived.items mask.now rank }
    {
        went(&mut self.arrived, mask, rank);
        order(&self.arrived, &mut self.visits);
    }
}
