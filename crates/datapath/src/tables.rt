// The tables: the lowest level, over any classifier.
ghost use Rattle.std.specs.Prelude.{◌≡◌, ◌<◌, [], map, IfOk, Some, None, MatchResult};
ghost use Rattle.std.specs.List.{AllByRecursion};
ghost use Rattle.datapath.specs.Crossed.{marks_of};
ghost use Rattle.datapath.specs.Given.{WalkGives};
ghost use Rattle.datapath.specs.Walk.{no_rules, walk, ports_of, Tells, credit_along, due};
ghost use Rattle.datapath.specs.Calls.{add_fault, with_rule, missing_fault, without_rule, rule_count};
ghost use Rattle.datapath.specs.Entries.{AllTrue};
ghost use Rattle.datapath.specs.Faults.{refusal_of};
ghost use Rattle.datapath.specs.TablesValue.{OfClassifiers};

use super::fault::TablesFault;
use super::four::Four;
use super::level::{Decision, Level, Peek, RuleName, RuleRecord};
use super::walk::Walk;
use classifier::Classifier;
use std::alloc::{AllocError, Global};
use std::marker::Model;

// Four tables, each with a classifier. What holds of them is a fact of `Four`, and shown by a model: so a caller's struct that takes
// a `C` may hold tables of classifiers made of it. To hold a type with facts of its own over `C`, it has to say the bound again.
#[derive(Drop)]
pub struct Tables<C: Classifier> {
    four: Four<C>,
}

// Contracts see the classifiers and their rules, and that these are lawful.
impl<C: Classifier> Model for Tables<C> {
    ghost use Rattle.std.specs.Prelude.{map};
    ghost use Rattle.std.specs.Coded.{codes};
    ghost use Rattle.datapath.specs.TablesLevelLemmas.{LawfulTables-prop};
    ghost use Rattle.datapath.specs.TablesValue.{TablesValue};

    ghost Value = { TablesValue C };

    ghost coded = { Prim.hlevel (codes, LawfulTables-prop) };

    ghost view = { λ a.
        record {
          classifiers = a.four.classifiers.items;
          rules = map C.Classifier.rules a.four.classifiers.items;
          four = a.four.four;
          lawful = a.four.lawful;
        } };
}

impl<C: Classifier + Drop> Tables<C> {
    // Four tables without a rule, each with a classifier of this kind. All memory is taken here.
    pub fn new(heap: Global, kind: C::Kind) -> Result<Tables<C>, AllocError>
        ensures empty { IfOk result (λ s. map C.Classifier.rules s.classifiers ≡ no_rules) }
        ensures rules { IfOk result (λ s. s.rules ≡ no_rules) }
    {
        Ok(Tables {
            four: Four::new(heap, kind)?,
        })
    }
}

impl<C: Classifier> Tables<C> {
    // The classifiers, from table 0 on. The rules of the tables are theirs.
    pub fn classifiers(&self) -> &[C]
        ensures value { result.now ≡ self.now.classifiers }
        ensures rules { OfClassifiers C.Classifier.rules self.now }
    {
        &self.four.classifiers
    }

    // The walk of a key, from table 0 on. Changes nothing.
    pub fn walk(&self, key: &[u8; 36]) -> Walk
        ensures crossed { marks_of result.crossed ≡ walk (map C.Classifier.rules self.now.classifiers) key.now }
        ensures ports { result.ports ≡ ports_of (walk (map C.Classifier.rules self.now.classifiers) key.now) }
        ensures mask { Tells (map C.Classifier.rules self.now.classifiers) key.now result.mask }
        ensures given { WalkGives C.Classifier.gives C.Classifier.rules self.now.classifiers key.now result.mask }
        ensures places { AllByRecursion (λ m. m.table < 4) (marks_of result.crossed) }
        ensures rules { OfClassifiers C.Classifier.rules self.now }
    {
        self.four.walk(key)
    }

    // n more for each of the crossed rules.
    pub fn credit_along(&mut self, walk: &Walk, n: u64)
        requires { AllByRecursion (λ m. m.table < 4) (marks_of walk.now.crossed) }
        ensures counted { map C.Classifier.rules self.new.classifiers ≡ credit_along (map C.Classifier.rules self.old.classifiers) (marks_of walk.now.crossed) n }
        ensures before { OfClassifiers C.Classifier.rules self.old }
        ensures after { OfClassifiers C.Classifier.rules self.new }
    {
        self.four.credit_along(walk, n);
    }

    // The walk of a key, with n more for each rule crossed.
    pub fn pass(&mut self, key: &[u8; 36], n: u64) -> Walk
        ensures ports { result.ports ≡ ports_of (walk (map C.Classifier.rules self.old.classifiers) key.now) }
        ensures mask { Tells (map C.Classifier.rules self.old.classifiers) key.now result.mask }
        ensures given { WalkGives C.Classifier.gives C.Classifier.rules self.old.classifiers key.now result.mask }
        ensures counted { map C.Classifier.rules self.new.classifiers ≡ due (map C.Classifier.rules self.old.classifiers) key.now n }
        ensures before { OfClassifiers C.Classifier.rules self.old }
        ensures after { OfClassifiers C.Classifier.rules self.new }
    {
        self.four.pass(key, n)
    }
}

// Each call promises what the interface does, and that the rules before and after it are the classifiers'.
impl<C: Classifier> Level for Tables<C> {
    ghost rules = { λ s. s.rules };

    ghost entries = { λ _. [] };

    ghost holds = { λ _ _. Unit {0} };

    ghost installs = { Unit {0} };

    // the union of the finds' masks
    ghost gives = { λ s k m. WalkGives C.Classifier.gives C.Classifier.rules s.classifiers k m };

    ghost depths = { λ _ _ d. d ≡ 1 };

    ghost suspects = { λ _ n. n ≡ 0 };

    ghost drops = { λ _ n. n ≡ 0 };

    ghost lawful = { λ s. s.lawful };

    ghost truth = { unfold AllTrue in λ s. tt };

    fn peek(&self, key: &[u8; 36]) -> Peek
        ensures ports { result.ports ≡ ports_of (walk self.now.rules key.now) }
        ensures mask { Tells self.now.rules key.now result.mask }
        ensures given { WalkGives C.Classifier.gives C.Classifier.rules self.now.classifiers key.now result.mask }
        ensures rules { OfClassifiers C.Classifier.rules self.now }
    {
        let Walk { ports, mask, .. } = self.four.walk(key);
        Peek { ports, mask }
    }

    fn decide(&mut self, key: &[u8; 36]) -> Decision
        ensures ports { result.ports ≡ ports_of (walk self.old.rules key.now) }
        ensures mask { Tells self.old.rules key.now result.mask }
        ensures given { WalkGives C.Classifier.gives C.Classifier.rules self.old.classifiers key.now result.mask }
        ensures counted { self.new.rules ≡ due self.old.rules key.now 1 }
        ensures depth { result.depth ≡ 1 }
        ensures before { OfClassifiers C.Classifier.rules self.old }
        ensures after { OfClassifiers C.Classifier.rules self.new }
    {
        let Walk { ports, mask, .. } = self.four.pass(key, 1);
        Decision {
            ports,
            mask,
            depth: 1,
        }
    }

    fn credit(&mut self, key: &[u8; 36], n: u64)
        ensures counted { self.new.rules ≡ due self.old.rules key.now n }
        ensures before { OfClassifiers C.Classifier.rules self.old }
        ensures after { OfClassifiers C.Classifier.rules self.new }
    {
        let _ = self.four.pass(key, n);
    }

    fn add(&mut self, rule: &RuleRecord) -> Result<(), TablesFault>
        ensures answer { MatchResult result (λ _. (add_fault self.old.rules rule.now ≡ None) × (self.new.rules ≡ with_rule self.old.rules rule.now)) (λ e. (add_fault self.old.rules rule.now ≡ Some (refusal_of e)) × (self.new.rules ≡ self.old.rules)) }
        ensures before { OfClassifiers C.Classifier.rules self.old }
        ensures after { OfClassifiers C.Classifier.rules self.new }
    {
        self.four.add(rule)
    }

    fn remove(&mut self, name: RuleName) -> Result<(), TablesFault>
        ensures answer { MatchResult result (λ _. (missing_fault self.old.rules name.table name.id ≡ None) × (self.new.rules ≡ without_rule self.old.rules name.table name.id)) (λ e. (missing_fault self.old.rules name.table name.id ≡ Some (refusal_of e)) × (self.new.rules ≡ self.old.rules)) }
        ensures before { OfClassifiers C.Classifier.rules self.old }
        ensures after { OfClassifiers C.Classifier.rules self.new }
    {
        self.four.remove(name)
    }

    fn count(&mut self, name: RuleName) -> Result<u64, TablesFault>
        ensures same { self.new ≡ self.old }
        ensures value { MatchResult result (λ n. (missing_fault self.old.rules name.table name.id ≡ None) × (n ≡ rule_count self.old.rules name.table name.id)) (λ e. missing_fault self.old.rules name.table name.id ≡ Some (refusal_of e)) }
        ensures rules { OfClassifiers C.Classifier.rules self.old }
    {
        self.four.count(name)
    }

    fn revalidate(&mut self, _n: u32) -> u32
        ensures same { self.new ≡ self.old }
        ensures remaining { result ≡ 0 }
    {
        // the tables have no suspect entries
        0
    }

    fn evict(&mut self) -> u32
        ensures same { self.new ≡ self.old }
        ensures dropped { result ≡ 0 }
    {
        // nor any to drop
        0
    }
}
