// The interface of a classifier: the rules that stand in one table.
ghost use Rattle.std.specs.Prelude.{◌≡◌, ℕ, List, [], IfOk, Some, None, MatchResult};
ghost use Rattle.classifier.specs.declared.rule.Rule.{Rule};
ghost use Rattle.classifier.specs.Faults.{refusal_of};
ghost use Rattle.classifier.specs.Rules.{Lawful, fresh, found, FindMask};
ghost use Rattle.classifier.specs.Tables.{add_refusal, added, missing_refusal, removed, credited, count_of};

use super::fault::ClassifierFault;
use super::rule::{Find, NewRule};
use std::alloc::{AllocError, Global};

pub trait Classifier: Sized {
    // what has to be chosen to make one
    type Kind: Copy;

    // the standing rules with their counts, by rising id
    ghost rules: { Self → List Rule };

    // the masks that a find of a key may give; where this is left open, any that keeps the promises of find
    ghost gives: { Self → List ℕ → List ℕ → Type 0 };

    // A new one has no rule. All its memory is taken here.
    fn new(heap: Global, kind: Self::Kind) -> Result<Self, AllocError>
        ensures { IfOk result (λ s. rules s ≡ []) };

    // One rule more, with count 0.
    fn add(&mut self, new: &NewRule) -> Result<(), ClassifierFault>
        ensures { MatchResult result (λ _. (add_refusal (rules self.old) (fresh new.now) ≡ None) × (rules self.new ≡ added (rules self.old) (fresh new.now))) (λ e. (add_refusal (rules self.old) (fresh new.now) ≡ Some (refusal_of e)) × (rules self.new ≡ rules self.old)) };

    // The rule of this id leaves.
    fn remove(&mut self, id: u32) -> Result<(), ClassifierFault>
        ensures { MatchResult result (λ _. (missing_refusal (rules self.old) id ≡ None) × (rules self.new ≡ removed (rules self.old) id)) (λ e. (missing_refusal (rules self.old) id ≡ Some (refusal_of e)) × (rules self.new ≡ rules self.old)) };

    // The matching rule of highest priority, if one matches.
    fn find(&self, key: &[u8; 36]) -> Find
        ensures rule { result.rule ≡ found (rules self.now) key.now }
        ensures mask { FindMask (rules self.now) key.now result.mask }
        ensures given { gives self.now key.now result.mask };

    // n more for the rule of this id, if it stands.
    fn credit(&mut self, id: u32, n: u64)
        ensures { rules self.new ≡ credited (rules self.old) id n };

    // The count of the rule of this id.
    fn count(&self, id: u32) -> Result<u64, ClassifierFault>
        ensures { MatchResult result (λ n. (missing_refusal (rules self.now) id ≡ None) × (n ≡ count_of (rules self.now) id)) (λ e. missing_refusal (rules self.now) id ≡ Some (refusal_of e)) };

    ghost lawful: { (s : Self) → Lawful (rules s) };
}
