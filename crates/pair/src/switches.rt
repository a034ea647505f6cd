// The two switches of a script: both get every call.
ghost use Rattle.std.specs.Prelude.{◌≡◌};
ghost use Rattle.packet.specs.Frames.{refusal};
ghost use Rattle.switch.specs.Totals.{after_frame as totals-after};
ghost use Rattle.text.specs.declared.answer.Reply.TheVariants.{Done};
ghost use Rattle.pair.specs.Calls.{changed, add_answer, after_add, remove_answer, after_remove, count_answer, frame_answer, after_frame, Masks, forwarded_answer, forwarded_depth, peeked_answer, peeked_mask};

use datapath::{Level, Peek, RuleName, RuleRecord};
use refusal::Refusal;
use sides::Sides;
use switch::{Forwarded, Switch, Totals};
use text::answer::{Answer, Reply};

// What a call says that changes the rules.
fn done(_: ()) -> Reply
    ensures { result ≡ Done }
{
    Reply::Done
}

#[derive(Drop)]
pub struct Switches<L: Level, M: Level> {
    pub a: Switch<L>,
    pub b: Switch<M>,
}

impl<L: Level, M: Level> Switches<L, M> {
    // Both get the rule.
    pub fn add(&mut self, rule: &RuleRecord) -> Sides<Answer>
        ensures answer_a { result.a ≡ add_answer (L.Level.rules self.old.a.level) rule.now }
        ensures answer_b { result.b ≡ add_answer (M.Level.rules self.old.b.level) rule.now }
        ensures rules_a { L.Level.rules self.new.a.level ≡ after_add (L.Level.rules self.old.a.level) rule.now }
        ensures rules_b { M.Level.rules self.new.b.level ≡ after_add (M.Level.rules self.old.b.level) rule.now }
        ensures totals_a { self.new.a.totals ≡ self.old.a.totals }
        ensures totals_b { self.new.b.totals ≡ self.old.b.totals }
    {
        let a = self.a.add(rule).map(done).map_err(Refusal::from);
        let b = self.b.add(rule).map(done).map_err(Refusal::from);
        Sides { a, b }
    }

    // Both lose the rule.
    pub fn remove(&mut self, name: RuleName) -> Sides<Answer>
        ensures answer_a { result.a ≡ remove_answer (L.Level.rules self.old.a.level) name.table name.id }
        ensures answer_b { result.b ≡ remove_answer (M.Level.rules self.old.b.level) name.table name.id }
        ensures rules_a { L.Level.rules self.new.a.level ≡ after_remove (L.Level.rules self.old.a.level) name.table name.id }
        ensures rules_b { M.Level.rules self.new.b.level ≡ after_remove (M.Level.rules self.old.b.level) name.table name.id }
        ensures totals_a { self.new.a.totals ≡ self.old.a.totals }
        ensures totals_b { self.new.b.totals ≡ self.old.b.totals }
    {
        let a = self.a.remove(name).map(done).map_err(Refusal::from);
        let b = self.b.remove(name).map(done).map_err(Refusal::from);
        Sides { a, b }
    }

    // Both count the rule.
    pub fn count(&mut self, name: RuleName) -> Sides<Answer>
        ensures answer_a { result.a ≡ count_answer (L.Level.rules self.old.a.level) name.table name.id }
        ensures answer_b { result.b ≡ count_answer (M.Level.rules self.old.b.level) name.table name.id }
        ensures rules_a { L.Level.rules self.new.a.level ≡ L.Level.rules self.old.a.level }
        ensures rules_b { M.Level.rules self.new.b.level ≡ M.Level.rules self.old.b.level }
        ensures totals_a { self.new.a.totals ≡ self.old.a.totals }
        ensures totals_b { self.new.b.totals ≡ self.old.b.totals }
    {
        let a = self.a.count(name).map(Reply::Count).map_err(Refusal::from);
        let b = self.b.count(name).map(Reply::Count).map_err(Refusal::from);
        Sides { a, b }
    }

    // Both decide the frame.
    pub fn frame(&mut self, port: u16, frame: &[u8]) -> Sides<Result<Forwarded, Refusal>>
        ensures answer_a { forwarded_answer result.a ≡ frame_answer (L.Level.rules self.old.a.level) port frame.now }
        ensures answer_b { forwarded_answer result.b ≡ frame_answer (M.Level.rules self.old.b.level) port frame.now }
        ensures rules_a { L.Level.rules self.new.a.level ≡ after_frame (L.Level.rules self.old.a.level) port frame.now }
        ensures rules_b { M.Level.rules self.new.b.level ≡ after_frame (M.Level.rules self.old.b.level) port frame.now }
        ensures totals_a { self.new.a.totals ≡ changed (refusal port frame.now) (totals-after self.old.a.totals (forwarded_depth result.a)) self.old.a.totals }
        ensures totals_b { self.new.b.totals ≡ changed (refusal port frame.now) (totals-after self.old.b.totals (forwarded_depth result.b)) self.old.b.totals }
    {
        let a = self.a.frame(port, frame).map_err(Refusal::from);
        let b = self.b.frame(port, frame).map_err(Refusal::from);
        Sides { a, b }
    }

    // Where both would send the frame. Changes nothing.
    pub fn peek(&self, port: u16, frame: &[u8]) -> Sides<Result<Peek, Refusal>>
        ensures answer_a { peeked_answer result.a ≡ frame_answer (L.Level.rules self.now.a.level) port frame.now }
        ensures answer_b { peeked_answer result.b ≡ frame_answer (M.Level.rules self.now.b.level) port frame.now }
        ensures mask_a { Masks (L.Level.rules self.now.a.level) port frame.now (peeked_mask result.a) }
        ensures mask_b { Masks (M.Level.rules self.now.b.level) port frame.now (peeked_mask result.b) }
    {
        let a = self.a.peek(port, frame).map_err(Refusal::from);
        let b = self.b.peek(port, frame).map_err(Refusal::from);
        Sides { a, b }
    }

    // The totals of both.
    pub fn totals(&self) -> Sides<Totals>
        ensures a { result.a ≡ self.now.a.totals }
        ensures b { result.b ≡ self.now.b.totals }
    {
        let a = self.a.totals();
        let b = self.b.totals();
        Sides { a, b }
    }
}
