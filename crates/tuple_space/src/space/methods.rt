// What a tuple-space classifier does.
ghost use Rattle.std.specs.Prelude.{◌≡◌, [], IfOk, Some, None, MatchResult};
ghost use Rattle.classifier.specs.Faults.{refusal_of};
ghost use Rattle.classifier.specs.Rules.{fresh, found, FindMask};
ghost use Rattle.classifier.specs.Tables.{add_refusal, added, missing_refusal, removed, credited};
ghost use Rattle.tuple_space.specs.Arrivals.{rules_of, arrivals};
ghost use Rattle.tuple_space.specs.Tuples.{arrived, left_after};
ghost use Rattle.tuple_space.specs.Visits.{tuple_mask};
ghost use Rattle.classifier.specs.KeptLaws.{lawful_kept};

use super::TupleSpace;
use crate::indexed::IndexedStore;
use crate::masks::Masks;
use crate::{scan, visit};
use classifier::{Classifier, ClassifierFault, Find, NewRule};
use std::alloc::{AllocError, Global};

impl Classifier for TupleSpace {
    type Kind = ();

    ghost rules = { rules_of };

    ghost gives = { λ s k m. m ≡ tuple_mask (arrivals s) (rules_of s) k };

    ghost lawful = { λ s. lawful_kept s.rules.store };

    fn new(heap: Global, _kind: ()) -> Result<TupleSpace, AllocError>
        ensures ok { IfOk result (λ s. rules_of s ≡ []) }
        ensures masks { IfOk result (λ s. arrivals s ≡ []) }
    {
        let rules = IndexedStore::new(heap)?;
        let masks = Masks::new(heap)?;
        Ok(TupleSpace { rules, masks })
    }

    // The mask of every tuple that was visited is in the mask that is given.
    fn find(&self, key: &[u8; 36]) -> Find
        ensures rule { result.rule ≡ found (rules_of self.now) key.now }
        ensures mask { FindMask (rules_of self.now) key.now result.mask }
        ensures given { result.mask ≡ tuple_mask (arrivals self.now) (rules_of self.now) key.now }
    {
        visit::visit(&self.rules, self.masks.visits(), key)
    }

    // A new mask comes to stand last.
    fn add(&mut self, new: &NewRule) -> Result<(), ClassifierFault>
        ensures cases { MatchResult result (λ _. (add_refusal (rules_of self.old) (fresh new.now) ≡ None) × (rules_of self.new ≡ added (rules_of self.old) (fresh new.now))) (λ e. (add_refusal (rules_of self.old) (fresh new.now) ≡ Some (refusal_of e)) × (rules_of self.new ≡ rules_of self.old)) }
        ensures masks { MatchResult result (λ _. arrivals self.new ≡ arrived (arrivals self.old) (rules_of self.old) new.now.key.mask) (λ e. arrivals self.new ≡ arrivals self.old) }
    {
        self.rules.add(new)?;
        self.masks.came(new.key.mask(), new.priority);
        Ok(())
    }

    // A mask leaves with the last rule that has it.
    fn remove(&mut self, id: u32) -> Result<(), ClassifierFault>
        ensures cases { MatchResult result (λ _. (missing_refusal (rules_of self.old) id ≡ None) × (rules_of self.new ≡ removed (rules_of self.old) id)) (λ e. (missing_refusal (rules_of self.old) id ≡ Some (refusal_of e)) × (rules_of self.new ≡ rules_of self.old)) }
        ensures masks { MatchResult result (λ _. arrivals self.new ≡ left_after (arrivals self.old) (rules_of self.old) id) (λ e. arrivals self.new ≡ arrivals self.old) }
    {
        let rule = self.rules.remove(id)?;
        let rank = scan::rank_left(self.rules.rules(), &rule.mask);
        self.masks.went(&rule.mask, rank);
        Ok(())
    }

    fn credit(&mut self, id: u32, n: u64)
        ensures self_after { rules_of self.new ≡ credited (rules_of self.old) id n }
        ensures masks { arrivals self.new ≡ arrivals self.old }
    {
        self.rules.credit(id, n)
    }

    fn count(&self, id: u32) -> Result<u64, ClassifierFault> {
        self.rules.count(id)
    }
}
