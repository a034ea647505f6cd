// What a masked key does.
ghost use Rattle.std.specs.Prelude.{◌≡◌, Some, None, Decides, MatchResult};
ghost use Rattle.flow.specs.Masks.{covered, Covers, first_outside, overlapping, Overlap};

use super::{MaskedKey, OutsideMask};
use crate::rows;

impl MaskedKey {
    // Takes a row whose value has no bit outside the mask, or names the first byte that has one.
    pub fn from_row(mask: &[u8; 36], value: &[u8; 36]) -> Result<MaskedKey, OutsideMask>
        ensures { MatchResult result (λ k. (first_outside mask.now value.now ≡ None) × (k.mask ≡ mask.now) × (k.value ≡ value.now)) (λ e. first_outside mask.now value.now ≡ Some e.byte) }
    {
        match rows::first_outside(mask, value) {
            None => Ok(MaskedKey {
                mask: *mask,
                value: *value,
            }),
            Some(byte) => Err(OutsideMask { byte }),
        }
    }

    pub fn mask(&self) -> &[u8; 36]
        ensures { result.now ≡ self.now.mask }
    {
        &self.mask
    }

    pub fn value(&self) -> &[u8; 36]
        ensures { result.now ≡ self.now.value }
    {
        &self.value
    }

    // Whether the key's bits under the mask are the value.
    pub fn covers(&self, key: &[u8; 36]) -> bool
        ensures test { result ≡ covered self.now.mask self.now.value key.now }
        ensures means { Decides result (Covers self.now.mask self.now.value key.now) }
    {
        rows::covers(&self.mask, &self.value, key)
    }

    // Whether some key is covered by both.
    pub fn overlaps(&self, other: &MaskedKey) -> bool
        ensures test { result ≡ overlapping self.now.mask self.now.value other.now.mask other.now.value }
        ensures means { Decides result (Overlap self.now.mask self.now.value other.now.mask other.now.value) }
    {
        rows::overlaps(&self.mask, &self.value, &other.mask, &other.value)
    }
}
