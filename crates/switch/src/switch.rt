// The switch: frames and rule changes, over any level.
ghost use Rattle.std.specs.Prelude.{◌≡◌, IfOk, Some, None, MatchResult, OnOk};
ghost use Rattle.packet.specs.Frames.{refusal, key_of};
ghost use Rattle.datapath.specs.Calls.{add_fault, with_rule, missing_fault, without_rule, rule_count};
ghost use Rattle.datapath.specs.Walk.{walk, ports_of, Tells, due};
ghost use Rattle.switch.specs.Faults.{refusal_of};
ghost use Rattle.switch.specs.Totals.{after_frame, none_yet};

use super::fault::SwitchFault;
use super::totals::Totals;
use datapath::{Level, Peek, RuleName, RuleRecord};
use packet::Reader;

#[derive(Drop)]
pub struct Switch<L: Level> {
    level: L,
    totals: Totals,
}

// Where a frame goes, and at which depth of levels that was decided.
#[derive(Clone, Copy)]
pub struct Forwarded {
    pub ports: u64,
    pub depth: u8,
}

impl<L: Level> Switch<L> {
    // A switch over a level, with totals of 0.
    pub fn new(level: L) -> Switch<L>
        ensures { (result.level ≡ level) × (result.totals ≡ none_yet) }
    {
        Switch {
            level,
            totals: Totals::default(),
        }
    }

    // Decides a frame that came in at a port, and counts it.
    pub fn frame(&mut self, in_port: u16, frame: &[u8]) -> Result<Forwarded, SwitchFault>
        ensures value { MatchResult result (λ f. (refusal in_port frame.now ≡ None) × (f.ports ≡ ports_of (walk (L.Level.rules self.old.level) (key_of in_port frame.now)))) (λ e. refusal in_port frame.now ≡ Some (refusal_of e)) }
        ensures counted { MatchResult result (λ f. L.Level.rules self.new.level ≡ due (L.Level.rules self.old.level) (key_of in_port frame.now) 1) (λ _. L.Level.rules self.new.level ≡ L.Level.rules self.old.level) }
        ensures totals { MatchResult result (λ f. self.new.totals ≡ after_frame self.old.totals f.depth) (λ _. self.new.totals ≡ self.old.totals) }
        ensures depth { IfOk result (λ f. L.Level.depths self.old.level (key_of in_port frame.now) f.depth) }
        ensures hit { IfOk result (λ f. L.Level.holds self.old.level (key_of in_port frame.now) → f.depth ≡ 1) }
        ensures installed { OnOk result (L.Level.installs → L.Level.holds self.new.level (key_of in_port frame.now)) }
    {
        let key = Reader::open(in_port, frame)?.key();
        let decision = self.level.decide(&key);
        let depth = decision.depth;
        self.totals = self.totals.note(depth);
        Ok(Forwarded {
            ports: decision.ports,
            depth,
        })
    }

    // Where a frame would go. Changes nothing.
    pub fn peek(&self, in_port: u16, frame: &[u8]) -> Result<Peek, SwitchFault>
        ensures given { IfOk result (λ p. L.Level.gives self.now.level (key_of in_port frame.now) p.mask) }
        ensures value { MatchResult result (λ p. (refusal in_port frame.now ≡ None) × (p.ports ≡ ports_of (walk (L.Level.rules self.now.level) (key_of in_port frame.now))) × Tells (L.Level.rules self.now.level) (key_of in_port frame.now) p.mask) (λ e. refusal in_port frame.now ≡ Some (refusal_of e)) }
    {
        let key = Reader::open(in_port, frame)?.key();
        Ok(self.level.peek(&key))
    }

    // One rule more.
    pub fn add(&mut self, rule: &RuleRecord) -> Result<(), SwitchFault>
        ensures value { MatchResult result (λ _. (add_fault (L.Level.rules self.old.level) rule.now ≡ None) × (L.Level.rules self.new.level ≡ with_rule (L.Level.rules self.old.level) rule.now)) (λ e. (add_fault (L.Level.rules self.old.level) rule.now ≡ Some (refusal_of e)) × (L.Level.rules self.new.level ≡ L.Level.rules self.old.level)) }
        ensures totals { self.new.totals ≡ self.old.totals }
    {
        Ok(self.level.add(rule)?)
    }

    // The rule of this id leaves its table.
    pub fn remove(&mut self, name: RuleName) -> Result<(), SwitchFault>
        ensures value { MatchResult result (λ _. (missing_fault (L.Level.rules self.old.level) name.table name.id ≡ None) × (L.Level.rules self.new.level ≡ without_rule (L.Level.rules self.old.level) name.table name.id)) (λ e. (missing_fault (L.Level.rules self.old.level) name.table name.id ≡ Some (refusal_of e)) × (L.Level.rules self.new.level ≡ L.Level.rules self.old.level)) }
        ensures totals { self.new.totals ≡ self.old.totals }
    {
        Ok(self.level.remove(name)?)
    }

    // The due count of the rule of this id.
    pub fn count(&mut self, name: RuleName) -> Result<u64, SwitchFault>
        ensures same { L.Level.rules self.new.level ≡ L.Level.rules self.old.level }
        ensures value { MatchResult result (λ n. (missing_fault (L.Level.rules self.old.level) name.table name.id ≡ None) × (n ≡ rule_count (L.Level.rules self.old.level) name.table name.id)) (λ e. missing_fault (L.Level.rules self.old.level) name.table name.id ≡ Some (refusal_of e)) }
        ensures totals { self.new.totals ≡ self.old.totals }
    {
        Ok(self.level.count(name)?)
    }

    // The four totals.
    pub fn totals(&self) -> Totals
        ensures { result ≡ self.now.totals }
    {
        self.totals
    }
}
