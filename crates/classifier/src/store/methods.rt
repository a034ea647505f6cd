// What a store of rules does: all that a classifier does but find.
ghost use Rattle.std.specs.Prelude.{◌≡◌, ◌≤◌, true, [], length, IfOk, Some, None, MatchOption, MatchResult};
ghost use Rattle.std.specs.List.{insert};
ghost use Rattle.classifier.specs.Faults.{refusal_of};
ghost use Rattle.classifier.specs.Kept.{kept, standing_rules};
ghost use Rattle.classifier.specs.Rules.{fresh};
ghost use Rattle.classifier.specs.Stores.{by_id, sound_test, standing};
ghost use Rattle.classifier.specs.Tables.{add_refusal, added, missing_refusal, removed, credited, count_of, of_id};
ghost use Rattle.classifier.specs.Places.{Absent, Placed};

use super::{Store, scan};
use crate::fault::ClassifierFault;
use crate::rule::{NewRule, Rule};
use std::alloc::{AllocError, Global};

impl Store {
    // A store with no rule, and with room for 64.
    pub fn new(heap: Global) -> Result<Store, AllocError>
        ensures { IfOk result (λ s. standing_rules s ≡ []) }
    {
        let rules = Vec::with_capacity(heap, 64)?;
        Ok(Store { rules })
    }

    // The rules, by falling priority and then by rising id.
    pub fn rules(&self) -> &[Rule]
        ensures is { result.now ≡ kept self.now }
        ensures standing { standing result.now ≡ true }
        ensures few { length result.now ≤ 64 }
    {
        self.rules.as_slice()
    }

    // The place of the rule of this id.
    fn place_of(&self, id: u32) -> Option<usize>
        ensures { MatchOption result (Absent (kept self.now) id) (λ p. Placed (kept self.now) id p) }
    {
        scan::place_of(&self.rules, id)
    }

    // Whether the new rule may stand, or why not.
    fn admit(&self, new: &Rule) -> Result<(), ClassifierFault>
        ensures { MatchResult result (λ _. add_refusal (standing_rules self.now) new.now ≡ None) (λ e. add_refusal (standing_rules self.now) new.now ≡ Some (refusal_of e)) }
    {
        if scan::is_standing(&self.rules, new.id) {
            return Err(ClassifierFault::Stands(new.id));
        }
        let full = self.rules.len() >= 64;
        if full {
            return Err(ClassifierFault::Full);
        }
        match scan::first_clash(&self.rules, new) {
            Some(rule) => Err(ClassifierFault::Overlaps(rule.id)),
            None => Ok(()),
        }
    }

    // Where a new rule that may stand goes in the order of looking: to the first that it goes before, or to the end.
    fn rank_place(&self, new: &Rule) -> usize
        requires sound { sound_test new.now ≡ true }
        requires admitted { add_refusal (standing_rules self.now) new.now ≡ None }
        ensures within { result ≤ length (kept self.now) }
        ensures grown { by_id (insert (kept self.now) result new.now) ≡ added (standing_rules self.now) new.now }
        ensures stands { standing (insert (kept self.now) result new.now) ≡ true }
    {
        scan::first_behind(&self.rules, new).unwrap_or(self.rules.len())
    }

    // One rule more, with count 0.
    pub fn add(&mut self, new: &NewRule) -> Result<(), ClassifierFault>
        ensures { MatchResult result (λ _. (add_refusal (standing_rules self.old) (fresh new.now) ≡ None) × (standing_rules self.new ≡ added (standing_rules self.old) (fresh new.now))) (λ e. (add_refusal (standing_rules self.old) (fresh new.now) ≡ Some (refusal_of e)) × (kept self.new ≡ kept self.old)) }
    {
        let rule = Rule::fresh(*new);
        self.admit(&rule)?;
        let place = self.rank_place(&rule);
        // there is room for 64 rules
        let _ = self.rules.insert(place, rule);
        Ok(())
    }

    // The rule of this id leaves.
    pub fn remove(&mut self, id: u32) -> Result<Rule, ClassifierFault>
        ensures { MatchResult result (λ out. (missing_refusal (standing_rules self.old) id ≡ None) × (standing_rules self.new ≡ removed (standing_rules self.old) id) × (of_id (standing_rules self.old) id ≡ Some out)) (λ e. (missing_refusal (standing_rules self.old) id ≡ Some (refusal_of e)) × (kept self.new ≡ kept self.old)) }
    {
        let place = self.place_of(id).ok_or(ClassifierFault::Missing(id))?;
        Ok(self.rules.remove(place))
    }

    // n more for the rule of this id, if it stands.
    pub fn credit(&mut self, id: u32, n: u64)
        ensures kept { kept self.new ≡ credited (kept self.old) id n }
        ensures rules { standing_rules self.new ≡ credited (standing_rules self.old) id n }
    {
        if let Some(place) = self.place_of(id) {
            let count = self.rules[place].count;
            self.rules[place].count = count.wrapping_add(n);
        }
    }

    // The count of the rule of this id.
    pub fn count(&self, id: u32) -> Result<u64, ClassifierFault>
        ensures { MatchResult result (λ n. (missing_refusal (standing_rules self.now) id ≡ None) × (n ≡ count_of (standing_rules self.now) id)) (λ e. missing_refusal (standing_rules self.now) id ≡ Some (refusal_of e)) }
    {
        let place = self.place_of(id).ok_or(ClassifierFault::Missing(id))?;
        Ok(self.rules[place].count)
    }
}
