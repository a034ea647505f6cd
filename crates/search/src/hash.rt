// Hashes of masked keys.
ghost use Rattle.std.specs.Prelude.{◌≡◌, ℕ, ◌*◌, ◌%◌, ◌<◌, List, bit_and};
ghost use Rattle.flow.specs.Masks.{masked};
ghost use Rattle.search.specs.Sums.{byte_sum};
ghost use native.Mathlib.Omega.{arith};

// A way to spread masked keys over the 128 buckets of an index. No answer depends on it.
pub trait KeyHash {
    // the bucket of some bytes
    ghost hash: { List ℕ → ℕ };

    // The bucket of the key's bits under the mask.
    fn bucket(&self, mask: &[u8; 36], key: &[u8; 36]) -> usize
        ensures { result ≡ hash (masked mask.now key.now) };

    ghost below: { (xs : List ℕ) → hash xs < 128 };
}

// The sum of the bytes, each by an odd weight, modulo 2^16; seven bits from its middle are the bucket.
#[derive(Clone, Copy)]
pub struct ByteSum;

static WEIGHTS: [u16; 36] = [
    40521, 45573, 18875, 26665, 46947, 56891, 45285, 47437, 11755, 8795, 53379, 59825, 42733, 9521,
    38089, 43101, 47963, 55765, 39753, 7897, 58125, 46455, 55429, 12007, 21281, 13571, 18377,
    37055, 47525, 44611, 57945, 6177, 38409, 28801, 13821, 46045,
];

// A masked byte by its weight.
fn weighed(mask: u8, key: u8, weight: u16) -> u16
    ensures { result ≡ bit_and mask key * weight % 65536 }
{
    u16::from(mask & key).wrapping_mul(weight)
}

impl KeyHash for ByteSum {
    ghost hash = { byte_sum };

    ghost below = { unfold byte_sum in λ xs. omega arith };

    fn bucket(&self, mask: &[u8; 36], key: &[u8; 36]) -> usize {
        let mut sum: u16 = 0;
        // by places: over `mask.iter().zip(key).zip(&WEIGHTS)` it takes 27 ns and not 7
        for i in 0..36 {
            sum = sum.wrapping_add(weighed(mask[i], key[i], WEIGHTS[i]));
        }
        usize::from((sum >> 8) % 128)
    }
}
