// A hash index of up to 128 slots.
ghost use Rattle.std.specs.Prelude.{◌≡◌, ◌<◌, slice_index};
ghost use Rattle.flow.specs.Masks.{masked};
ghost use Rattle.search.specs.Buckets.{Empty, Marked, Unmarked};

use crate::hash::KeyHash;

// Bit i of a bucket stands for slot i: it is set where the slot's element may answer and its masked value hashes there.
#[derive(Clone, Copy, Drop)]
pub struct Index<H> {
    buckets: [u128; 128],
    hash: H,
}

// Buckets with no bit set.
fn no_slots() -> [u128; 128]
    ensures { Empty result }
{
    [0; 128]
}

// Sets the bit of a slot in a bucket. A slot from 128 on has none.
fn mark(buckets: &mut [u128; 128], bucket: usize, slot: usize)
    requires { bucket < 128 }
    ensures { Marked buckets.old buckets.new bucket slot }
{
    if slot < 128 {
        buckets[bucket] |= 1u128 << slot;
    }
}

// Clears the bit of a slot in a bucket.
fn unmark(buckets: &mut [u128; 128], bucket: usize, slot: usize)
    requires { bucket < 128 }
    ensures { Unmarked buckets.old buckets.new bucket slot }
{
    if slot < 128 {
        let slots = buckets[bucket];
        buckets[bucket] = slots ^ (slots & (1u128 << slot));
    }
}

impl<H: KeyHash> Index<H> {
    // The index of slots none of which may answer.
    pub fn new(hash: H) -> Index<H>
        ensures { Empty result.buckets }
    {
        Index {
            buckets: no_slots(),
            hash,
        }
    }

    // A slot holds an element of this mask and value, which may answer from now on. A slot from 128 on has no bit.
    pub fn put(&mut self, slot: usize, mask: &[u8; 36], value: &[u8; 36])
        ensures { Marked self.old.buckets self.new.buckets (H.KeyHash.hash (masked mask.now value.now)) slot }
    {
        let bucket = self.hash.bucket(mask, value);
        mark(&mut self.buckets, bucket, slot);
    }

    // The element of this mask and value that a slot holds may answer no more.
    pub fn gone(&mut self, slot: usize, mask: &[u8; 36], value: &[u8; 36])
        ensures { Unmarked self.old.buckets self.new.buckets (H.KeyHash.hash (masked mask.now value.now)) slot }
    {
        let bucket = self.hash.bucket(mask, value);
        unmark(&mut self.buckets, bucket, slot);
    }

    // No slot may answer any more.
    pub fn clear(&mut self)
        ensures { Empty self.new.buckets }
    {
        self.buckets = no_slots();
    }

    // The slots whose elements may answer and hash as the key's bits under the mask.
    pub(crate) fn slots_of(&self, mask: &[u8; 36], key: &[u8; 36]) -> u128
        ensures { result ≡ slice_index self.now.buckets (H.KeyHash.hash (masked mask.now key.now)) }
    {
        self.buckets[self.hash.bucket(mask, key)]
    }
}
