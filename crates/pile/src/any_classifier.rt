// A classifier that is chosen at run time.
ghost use Rattle.std.specs.Prelude.{◌≡◌, [], IfOk, Some, None, MatchResult};
ghost use Rattle.classifier.specs.Faults.{refusal_of};
ghost use Rattle.classifier.specs.Rules.{fresh, found, FindMask};
ghost use Rattle.classifier.specs.Tables.{add_refusal, added, missing_refusal, removed, credited};
ghost use Rattle.pile.specs.Choices.{any_rules, order, new_order, order_added, order_removed, find_mask};
ghost use Rattle.pile.specs.declared.any_classifier.AnyClassifier.TheVariants.{Linear, Tuple};
ghost use Rattle.classifier.specs.KeptLaws.{lawful_kept};

use classifier::{Classifier, ClassifierFault, Find, Linear, NewRule};
use std::alloc::{AllocError, Global};
use tuple_space::TupleSpace;

#[derive(Clone, Copy)]
pub enum ClassifierKind {
    Linear,
    Tuple,
}

#[derive(Drop)]
pub enum AnyClassifier {
    Linear(Linear),
    Tuple(TupleSpace),
}

impl Classifier for AnyClassifier {
    type Kind = ClassifierKind;

    ghost rules = { any_rules };

    ghost gives = { λ s k m. m ≡ find_mask (order s) (any_rules s) k };

    ghost lawful = { elim [ Linear s ↦ lawful_kept s.store | Tuple s ↦ lawful_kept s.rules.store ] };

    fn new(heap: Global, kind: ClassifierKind) -> Result<AnyClassifier, AllocError>
        ensures ok { IfOk result (λ s. any_rules s ≡ []) }
        ensures order { IfOk result (λ s. order s ≡ new_order kind) }
    {
        match kind {
            ClassifierKind::Linear => Ok(AnyClassifier::Linear(<Linear as Classifier>::new(
                heap,
                (),
            )?)),
            ClassifierKind::Tuple => Ok(AnyClassifier::Tuple(<TupleSpace as Classifier>::new(
                heap,
                (),
            )?)),
        }
    }

    fn add(&mut self, new: &NewRule) -> Result<(), ClassifierFault>
        ensures cases { MatchResult result (λ _. (add_refusal (any_rules self.old) (fresh new.now) ≡ None) × (any_rules self.new ≡ added (any_rules self.old) (fresh new.now))) (λ e. (add_refusal (any_rules self.old) (fresh new.now) ≡ Some (refusal_of e)) × (any_rules self.new ≡ any_rules self.old)) }
        ensures order { MatchResult result (λ _. order self.new ≡ order_added (order self.old) (any_rules self.old) new.now.key.mask) (λ e. order self.new ≡ order self.old) }
    {
        match self {
            AnyClassifier::Linear(linear) => linear.add(new),
            AnyClassifier::Tuple(tuple) => tuple.add(new),
        }
    }

    fn remove(&mut self, id: u32) -> Result<(), ClassifierFault>
        ensures cases { MatchResult result (λ _. (missing_refusal (any_rules self.old) id ≡ None) × (any_rules self.new ≡ removed (any_rules self.old) id)) (λ e. (missing_refusal (any_rules self.old) id ≡ Some (refusal_of e)) × (any_rules self.new ≡ any_rules self.old)) }
        ensures order { MatchResult result (λ _. order self.new ≡ order_removed (order self.old) (any_rules self.old) id) (λ e. order self.new ≡ order self.old) }
    {
        match self {
            AnyClassifier::Linear(linear) => linear.remove(id),
            AnyClassifier::Tuple(tuple) => tuple.remove(id),
        }
    }

    fn find(&self, key: &[u8; 36]) -> Find
        ensures rule { result.rule ≡ found (any_rules self.now) key.now }
        ensures mask { FindMask (any_rules self.now) key.now result.mask }
        ensures given { result.mask ≡ find_mask (order self.now) (any_rules self.now) key.now }
    {
        match self {
            AnyClassifier::Linear(linear) => linear.find(key),
            AnyClassifier::Tuple(tuple) => tuple.find(key),
        }
    }

    fn credit(&mut self, id: u32, n: u64)
        ensures self_after { any_rules self.new ≡ credited (any_rules self.old) id n }
        ensures order { order self.new ≡ order self.old }
    {
        match self {
            AnyClassifier::Linear(linear) => linear.credit(id, n),
            AnyClassifier::Tuple(tuple) => tuple.credit(id, n),
        }
    }

    fn count(&self, id: u32) -> Result<u64, ClassifierFault> {
        match self {
            AnyClassifier::Linear(linear) => linear.count(id),
            AnyClassifier::Tuple(tuple) => tuple.count(id),
        }
    }
}
