// A store of rules with the hash index of its rules.
ghost use Rattle.std.specs.Prelude.{◌≡◌, [], IfOk, Some, None, MatchResult};
ghost use Rattle.classifier.specs.Faults.{refusal_of};
ghost use Rattle.classifier.specs.Kept.{kept, standing_rules};
ghost use Rattle.classifier.specs.Rules.{fresh};
ghost use Rattle.classifier.specs.Tables.{add_refusal, added, missing_refusal, removed, credited, count_of, of_id};
ghost use Rattle.tuple_space.specs.Indexes.{IndexedRules};
ghost use Rattle.tuple_space.specs.Visits.{searched};

use crate::scan;
use classifier::{ClassifierFault, Found, NewRule, Rule, Store};
use search::{ByteSum, Index, Tuple};
use std::alloc::{AllocError, Global};

#[derive(Drop)]
pub struct IndexedStore {
    store: Store,
    index: Index<ByteSum>,
    // the index is that of the rules
    ghost indexed: { IndexedRules (kept store) index.buckets },
}

// The index of the store's rules.
fn index_of(store: &Store) -> Index<ByteSum>
    ensures { IndexedRules (kept store.now) result.buckets }
{
    scan::index_of(store.rules())
}

impl IndexedStore {
    // A store with no rule.
    pub fn new(heap: Global) -> Result<IndexedStore, AllocError>
        ensures { IfOk result (λ s. standing_rules s.store ≡ []) }
    {
        let store = Store::new(heap)?;
        let index = index_of(&store);
        Ok(IndexedStore { store, index })
    }

    // The rules, by falling priority and then by rising id.
    pub fn rules(&self) -> &[Rule]
        ensures { result.now ≡ kept self.now.store }
    {
        self.store.rules()
    }

    // One rule more, with count 0.
    pub fn add(&mut self, new: &NewRule) -> Result<(), ClassifierFault>
        ensures { MatchResult result (λ _. (add_refusal (standing_rules self.old.store) (fresh new.now) ≡ None) × (standing_rules self.new.store ≡ added (standing_rules self.old.store) (fresh new.now))) (λ e. (add_refusal (standing_rules self.old.store) (fresh new.now) ≡ Some (refusal_of e)) × (standing_rules self.new.store ≡ standing_rules self.old.store)) }
    {
        self.store.add(new)?;
        self.index = index_of(&self.store);
        Ok(())
    }

    // The rule of this id leaves.
    pub fn remove(&mut self, id: u32) -> Result<Rule, ClassifierFault>
        ensures { MatchResult result (λ out. (missing_refusal (standing_rules self.old.store) id ≡ None) × (standing_rules self.new.store ≡ removed (standing_rules self.old.store) id) × (of_id (standing_rules self.old.store) id ≡ Some out)) (λ e. (missing_refusal (standing_rules self.old.store) id ≡ Some (refusal_of e)) × (standing_rules self.new.store ≡ standing_rules self.old.store)) }
    {
        let rule = self.store.remove(id)?;
        // the rules behind it have other places now
        let left = &self.store;
        self.index = index_of(left);
        Ok(rule)
    }

    // n more for the rule of this id, if it stands.
    pub fn credit(&mut self, id: u32, n: u64)
        ensures { standing_rules self.new.store ≡ credited (standing_rules self.old.store) id n }
    {
        self.store.credit(id, n)
    }

    // The count of the rule of this id.
    pub fn count(&self, id: u32) -> Result<u64, ClassifierFault>
        ensures { MatchResult result (λ n. (missing_refusal (standing_rules self.now.store) id ≡ None) × (n ≡ count_of (standing_rules self.now.store) id)) (λ e. missing_refusal (standing_rules self.now.store) id ≡ Some (refusal_of e)) }
    {
        self.store.count(id)
    }

    // What the search of the mask's tuple finds for the key.
    pub fn search(&self, mask: &[u8; 36], key: &[u8; 36]) -> Option<Found>
        ensures { result ≡ searched (standing_rules self.now.store) key.now mask.now }
    {
        let tuple = Tuple {
            slots: self.store.rules(),
            index: &self.index,
        };
        tuple.find(mask, key)
    }
}
