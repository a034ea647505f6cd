// The tables as a struct with facts of its own: their rules are their classifiers' rules by definition.
ghost use Rattle.std.specs.Prelude.{◌≡◌, ◌<◌, [], map, length, IfOk, Some, None, MatchResult};
ghost use Rattle.datapath.specs.Calls.{table_refusal, action_refusal, add_fault, with_rule, missing_fault, without_rule, rule_count};
ghost use Rattle.datapath.specs.Entries.{AllTrue};
ghost use Rattle.datapath.specs.Faults.{refusal_of};
ghost use Rattle.datapath.specs.Given.{WalkGives};
ghost use Rattle.datapath.specs.Walk.{LawfulTables, no_rules};
ghost use Rattle.datapath.specs.TablesLevelLemmas.{LawfulTables-prop};

use super::fault::TablesFault;
use super::level::{Decision, Level, Peek, RuleName, RuleRecord};
use super::walk::Walk;
use classifier::{Classifier, NewRule};
use flow::MaskedKey;
use std::alloc::{AllocError, Global};

// The classifiers of the tables, from table 0 on.
#[derive(Drop)]
pub struct Four<C: Classifier> {
    pub(crate) classifiers: Vec<C>,
    ghost four: { length classifiers.items ≡ 4 },
    ghost lawful: { LawfulTables (map C.Classifier.rules classifiers.items) } by { LawfulTables-prop _ },
}

impl<C: Classifier + Drop> Four<C> {
    // Four tables without a rule, each with a classifier of this kind. All memory is taken here.
    pub fn new(heap: Global, kind: C::Kind) -> Result<Four<C>, AllocError>
        ensures { IfOk result (λ s. map C.Classifier.rules s.classifiers.items ≡ no_rules) }
    {
        let mut classifiers = Vec::with_capacity(heap, 4)?;
        for _ in 0..4usize {
            classifiers.push(C::new(heap, kind)?)?;
        }
        Ok(Four { classifiers })
    }
}

// The place of a table, which is one of four.
fn place(table: u32) -> Result<usize, TablesFault>
    ensures { MatchResult result (λ t. (table_refusal table ≡ None) × (t ≡ table) × (t < 4)) (λ e. table_refusal table ≡ Some (refusal_of e)) }
{
    if table > 3 {
        return Err(TablesFault::Table(table));
    }
    Ok(table as usize)
}

// Whether a rule of a table may have these ports and this next table.
fn check_action(table: u32, ports: u64, next: u16) -> Result<(), TablesFault>
    ensures { MatchResult result (λ _. action_refusal table ports next ≡ None) (λ e. action_refusal table ports next ≡ Some (refusal_of e)) }
{
    if ports % 2 == 1 {
        return Err(TablesFault::PortZero);
    }
    if next != 0 && (u32::from(next) <= table || next > 3) {
        return Err(TablesFault::Next(next));
    }
    Ok(())
}

impl<C: Classifier> Four<C> {
    // One rule more.
    pub fn add(&mut self, rule: &RuleRecord) -> Result<(), TablesFault>
        ensures { MatchResult result (λ _. (add_fault (map C.Classifier.rules self.old.classifiers.items) rule.now ≡ None) × (map C.Classifier.rules self.new.classifiers.items ≡ with_rule (map C.Classifier.rules self.old.classifiers.items) rule.now)) (λ e. (add_fault (map C.Classifier.rules self.old.classifiers.items) rule.now ≡ Some (refusal_of e)) × (map C.Classifier.rules self.new.classifiers.items ≡ map C.Classifier.rules self.old.classifiers.items)) }
    {
        let t = place(rule.table)?;
        let key = MaskedKey::from_row(&rule.mask, &rule.value)?;
        check_action(rule.table, rule.ports, rule.next)?;
        self.classifiers[t].add(&NewRule {
            id: rule.id,
            priority: rule.priority,
            key,
            ports: rule.ports,
            next: rule.next,
        })?;
        Ok(())
    }

    // The rule of this id leaves its table.
    pub fn remove(&mut self, name: RuleName) -> Result<(), TablesFault>
        ensures { MatchResult result (λ _. (missing_fault (map C.Classifier.rules self.old.classifiers.items) name.table name.id ≡ None) × (map C.Classifier.rules self.new.classifiers.items ≡ without_rule (map C.Classifier.rules self.old.classifiers.items) name.table name.id)) (λ e. (missing_fault (map C.Classifier.rules self.old.classifiers.items) name.table name.id ≡ Some (refusal_of e)) × (map C.Classifier.rules self.new.classifiers.items ≡ map C.Classifier.rules self.old.classifiers.items)) }
    {
        let t = place(name.table)?;
        self.classifiers[t].remove(name.id)?;
        Ok(())
    }

    // The due count of the rule of this id.
    pub fn count(&self, name: RuleName) -> Result<u64, TablesFault>
        ensures { MatchResult result (λ n. (missing_fault (map C.Classifier.rules self.now.classifiers.items) name.table name.id ≡ None) × (n ≡ rule_count (map C.Classifier.rules self.now.classifiers.items) name.table name.id)) (λ e. missing_fault (map C.Classifier.rules self.now.classifiers.items) name.table name.id ≡ Some (refusal_of e)) }
    {
        let t = place(name.table)?;
        Ok(self.classifiers[t].count(name.id)?)
    }
}

// The rules of these tables are their classifiers' rules.
impl<C: Classifier> Level for Four<C> {
    ghost rules = { λ s. map C.Classifier.rules s.classifiers.items };

    ghost entries = { λ _. [] };

    ghost holds = { λ _ _. Unit {0} };

    ghost installs = { Unit {0} };

    // the union of the finds' masks
    ghost gives = { λ s k m. WalkGives C.Classifier.gives C.Classifier.rules s.classifiers.items k m };

    ghost depths = { λ _ _ d. d ≡ 1 };

    ghost suspects = { λ _ n. n ≡ 0 };

    ghost drops = { λ _ n. n ≡ 0 };

    ghost lawful = { λ s. s.lawful };

    ghost truth = { unfold AllTrue in λ s. tt };

    fn peek(&self, key: &[u8; 36]) -> Peek {
        let Walk { ports, mask, .. } = self.walk(key);
        Peek { ports, mask }
    }

    fn decide(&mut self, key: &[u8; 36]) -> Decision {
        let Walk { ports, mask, .. } = self.pass(key, 1);
        Decision {
            ports,
            mask,
            depth: 1,
        }
    }

    fn credit(&mut self, key: &[u8; 36], n: u64) {
        let _ = self.pass(key, n);
    }

    fn add(&mut self, rule: &RuleRecord) -> Result<(), TablesFault> {
        Four::add(self, rule)
    }

    fn remove(&mut self, name: RuleName) -> Result<(), TablesFault> {
        Four::remove(self, name)
    }

    fn count(&mut self, name: RuleName) -> Result<u64, TablesFault> {
        Four::count(self, name)
    }

    fn revalidate(&mut self, _n: u32) -> u32 {
        // the tables have no suspect entries
        0
    }

    fn evict(&mut self) -> u32 {
        // nor any to drop
        0
    }
}
