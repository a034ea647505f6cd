// What a linear classifier does.
ghost use Rattle.std.specs.Prelude.{◌≡◌};
ghost use Rattle.classifier.specs.Kept.{standing_rules};
ghost use Rattle.classifier.specs.Rules.{found, FindMask};
ghost use Rattle.classifier.specs.Stores.{linear_mask};
ghost use Rattle.classifier.specs.KeptLaws.{lawful_kept};

use super::Linear;
use crate::classifier::Classifier;
use crate::fault::ClassifierFault;
use crate::rule::{Find, NewRule};
use crate::store::Store;
use std::alloc::{AllocError, Global};

impl Classifier for Linear {
    type Kind = ();

    ghost rules = { λ s. standing_rules s.store };

    ghost gives = { λ s k m. m ≡ linear_mask (standing_rules s.store) k };

    ghost lawful = { λ s. lawful_kept s.store };

    fn new(heap: Global, _kind: ()) -> Result<Linear, AllocError> {
        let store = Store::new(heap)?;
        Ok(Linear { store })
    }

    fn add(&mut self, new: &NewRule) -> Result<(), ClassifierFault> {
        self.store.add(new)
    }

    fn remove(&mut self, id: u32) -> Result<(), ClassifierFault> {
        self.store.remove(id)?;
        Ok(())
    }

    // The mask is the union of the masks of the rules down to the first that matches.
    fn find(&self, key: &[u8; 36]) -> Find
        ensures rule { result.rule ≡ found (standing_rules self.now.store) key.now }
        ensures mask { FindMask (standing_rules self.now.store) key.now result.mask }
        ensures given { result.mask ≡ linear_mask (standing_rules self.now.store) key.now }
    {
        let mut mask = flow::empty_mask();
        for rule in self.store.rules() {
            if rule.look(key, &mut mask) {
                return Find {
                    rule: Some(rule.name()),
                    mask,
                };
            }
        }
        Find { rule: None, mask }
    }

    fn credit(&mut self, id: u32, n: u64) {
        self.store.credit(id, n)
    }

    fn count(&self, id: u32) -> Result<u64, ClassifierFault> {
        self.store.count(id)
    }
}
