// The interface of a level: it means the rules of the four tables, each with its due count.
ghost use Rattle.std.specs.Prelude.{◌≡◌, ℕ, ◌≤◌, List, Some, None, MatchResult};
ghost use Rattle.classifier.specs.declared.rule.Rule.{Rule};
ghost use Rattle.datapath.specs.Calls.{add_fault, with_rule, missing_fault, without_rule, rule_count};
ghost use Rattle.datapath.specs.Entries.{Entry, AllTrue};
ghost use Rattle.datapath.specs.Faults.{refusal_of};
ghost use Rattle.datapath.specs.Walk.{TablesOf, LawfulTables, walk, ports_of, Tells, due};

use super::fault::TablesFault;

// A rule as a caller lends it.
#[derive(Clone, Copy)]
pub struct RuleRecord {
    pub table: u32,
    pub id: u32,
    pub priority: u16,
    pub mask: [u8; 36],
    pub value: [u8; 36],
    // bit p for port p, bit 0 never
    pub ports: u64,
    // the table that follows, 0 for none
    pub next: u16,
}

// A rule by its table and its id.
#[derive(Debug, Clone, Copy, PartialEq, Eq, PartialOrd, Ord)]
pub struct RuleName {
    pub table: u32,
    pub id: u32,
}

// A rule that a key crosses.
#[derive(Clone, Copy, Default)]
pub struct Mark {
    pub table: u8,
    pub id: u32,
    pub ports: u64,
    pub next: u16,
}

// Where a key goes, and a mask: every key that agrees with the key in its bits is treated alike.
#[derive(Clone, Copy)]
pub struct Peek {
    pub ports: u64,
    pub mask: [u8; 36],
}

// The same for a frame that is decided; the depth is 1 where the level itself answers, else one more than below.
#[derive(Clone, Copy)]
pub struct Decision {
    pub ports: u64,
    pub mask: [u8; 36],
    pub depth: u8,
}

pub trait Level {
    // the rules of the four tables, each with its due count
    ghost rules: { Self → TablesOf };

    // the unsuspected entries of this level and those below
    ghost entries: { Self → List Entry };

    // the level itself answers this key
    ghost holds: { Self → List ℕ → Type 0 };

    // the level keeps what it decided
    ghost installs: { Type 0 };

    // What a level of another party may leave open, and a pile of known levels fixes:
    // the masks that it may give for a key
    ghost gives: { Self → List ℕ → List ℕ → Type 0 };

    // the depths at which it may decide a key
    ghost depths: { Self → List ℕ → ℕ → Type 0 };

    // the number of suspect entries in this level and below, as a revalidation may give it
    ghost suspects: { Self → ℕ → Type 0 };

    // the number of entries that an eviction drops in this level and below, as it may give it
    ghost drops: { Self → ℕ → Type 0 };

    // Where a key goes. Changes nothing.
    fn peek(&self, key: &[u8; 36]) -> Peek
        ensures ports { result.ports ≡ ports_of (walk (rules self.now) key.now) }
        ensures mask { Tells (rules self.now) key.now result.mask }
        ensures given { gives self.now key.now result.mask };

    // The same, and 1 more for each rule crossed.
    fn decide(&mut self, key: &[u8; 36]) -> Decision
        ensures ports { result.ports ≡ ports_of (walk (rules self.old) key.now) }
        ensures mask { Tells (rules self.old) key.now result.mask }
        ensures given { gives self.old key.now result.mask }
        ensures counted { rules self.new ≡ due (rules self.old) key.now 1 }
        ensures deep { 1 ≤ result.depth }
        ensures depth { depths self.old key.now result.depth }
        ensures hit { holds self.old key.now → result.depth ≡ 1 }
        ensures installed { installs → holds self.new key.now };

    // n more for each rule that the key crosses.
    fn credit(&mut self, key: &[u8; 36], n: u64)
        ensures counted { rules self.new ≡ due (rules self.old) key.now n }
        ensures suspects { (i : ℕ) → suspects self.old i → suspects self.new i }
        ensures drops { (i : ℕ) → drops self.new i → drops self.old i };

    // One rule more.
    fn add(&mut self, rule: &RuleRecord) -> Result<(), TablesFault>
        ensures { MatchResult result (λ _. (add_fault (rules self.old) rule.now ≡ None) × (rules self.new ≡ with_rule (rules self.old) rule.now)) (λ e. (add_fault (rules self.old) rule.now ≡ Some (refusal_of e)) × (rules self.new ≡ rules self.old)) };

    // The rule of this id leaves its table.
    fn remove(&mut self, name: RuleName) -> Result<(), TablesFault>
        ensures { MatchResult result (λ _. (missing_fault (rules self.old) name.table name.id ≡ None) × (rules self.new ≡ without_rule (rules self.old) name.table name.id)) (λ e. (missing_fault (rules self.old) name.table name.id ≡ Some (refusal_of e)) × (rules self.new ≡ rules self.old)) };

    // The due count of the rule of this id.
    fn count(&mut self, name: RuleName) -> Result<u64, TablesFault>
        ensures same { rules self.new ≡ rules self.old }
        ensures value { MatchResult result (λ n. (missing_fault (rules self.old) name.table name.id ≡ None) × (n ≡ rule_count (rules self.old) name.table name.id)) (λ e. missing_fault (rules self.old) name.table name.id ≡ Some (refusal_of e)) };

    // Looks again at suspect entries, in up to n slots of each level. Gives the number of suspect entries that remain, up to 2^32 - 1.
    fn revalidate(&mut self, n: u32) -> u32
        ensures same { rules self.new ≡ rules self.old }
        ensures remaining { suspects self.new result };

    // Drops an entry of each level. Gives the number of entries dropped, up to 2^32 - 1.
    fn evict(&mut self) -> u32
        ensures same { rules self.new ≡ rules self.old }
        ensures dropped { drops self.old result };

    ghost lawful: { (s : Self) → LawfulTables (rules s) };

    ghost truth: { (s : Self) → AllTrue (rules s) (entries s) };
}
