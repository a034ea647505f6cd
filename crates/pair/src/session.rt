// The calls of a script: both switches get each, and its answer goes into the book.
ghost use Rattle.std.specs.Prelude.{◌≡◌, ℕ, true, List, is_ok};
ghost use Rattle.packet.specs.Frames.{refusal};
ghost use Rattle.switch.specs.Totals.{after_frame as totals-after};
ghost use Rattle.text.specs.declared.answer.Verb.TheVariants.{Add, Remove, Count as Counts};
ghost use Rattle.text.specs.Answers.{answer_line, frame_line, peek_line, totals_line};
ghost use Rattle.pair.specs.Books.{Wrote, differs_with, at_line};
ghost use Rattle.pair.specs.Calls.{changed, add_answer, after_add, remove_answer, after_remove, count_answer, frame_answer, after_frame, Masks, forwarded_answer, forwarded_depth, peeked_answer, peeked_mask};

use super::book::Book;
use super::switches::Switches;
use datapath::{Level, Peek, RuleName, RuleRecord};
use refusal::Refusal;
use sides::Sides;
use std::alloc::AllocError;
use switch::Forwarded;
use text::answer::{Answer, Reply, Verb, frame_line, peek_line, report_line, totals_line};
use text::place::Place;

// The switches of a run, and its book.
#[derive(Drop)]
pub struct Session<L: Level, M: Level> {
    pub switches: Switches<L, M>,
    pub book: Book,
}

// Whether one of the two accepted.
fn accepted(answers: &Sides<Answer>) -> bool {
    answers.a.is_ok() || answers.b.is_ok()
}

// The mask of a peek, 0 where the frame is refused.
fn mask_of(peek: Result<Peek, Refusal>) -> [u8; 36]
    ensures { result ≡ peeked_mask peek }
{
    match peek {
        Ok(p) => p.mask,
        Err(_) => [0; 36],
    }
}

// The calls that change no switch, for switches that are shared.
impl Book {
    // Answers `peek`.
    pub fn peek<L: Level, M: Level>(
        &mut self,
        switches: &Switches<L, M>,
        line: u64,
        port: u16,
        frame: &[u8],
    ) -> Result<(), AllocError>
        ensures wrote { (m : List ℕ) × (n : List ℕ) × Wrote (is_ok result) self.old self.new (peek_line (at_line line) (frame_answer (L.Level.rules switches.now.a.level) port frame.now) (frame_answer (M.Level.rules switches.now.b.level) port frame.now) m n) × Masks (L.Level.rules switches.now.a.level) port frame.now m × Masks (M.Level.rules switches.now.b.level) port frame.now n }
        ensures differed { self.new.differed ≡ differs_with self.old (frame_answer (L.Level.rules switches.now.a.level) port frame.now) (frame_answer (M.Level.rules switches.now.b.level) port frame.now) }
        ensures standing { self.new.standing ≡ self.old.standing }
    {
        let Sides { a, b } = switches.peek(port, frame);
        let answers = Sides {
            a: a.map(|p| Reply::Ports(p.ports)),
            b: b.map(|p| Reply::Ports(p.ports)),
        };
        let masks = Sides {
            a: mask_of(a),
            b: mask_of(b),
        };
        self.note(&answers);
        peek_line(&mut self.page, Place { line, frame: None }, answers, &masks)
    }

    // Answers `totals`.
    pub fn totals<L: Level, M: Level>(
        &mut self,
        switches: &Switches<L, M>,
        line: u64,
    ) -> Result<(), AllocError>
        ensures wrote { Wrote (is_ok result) self.old self.new (totals_line (at_line line) switches.now.a.totals switches.now.b.totals) }
        ensures differed { self.new.differed ≡ self.old.differed }
        ensures standing { self.new.standing ≡ self.old.standing }
    {
        let totals = switches.totals();
        totals_line(&mut self.page, Place { line, frame: None }, totals)
    }
}

impl<L: Level, M: Level> Session<L, M> {
    // Answers `add`. The rule stands where one of the two accepts it.
    pub fn add(&mut self, line: u64, rule: &RuleRecord) -> Result<(), AllocError>
        ensures rules_a { L.Level.rules self.new.switches.a.level ≡ after_add (L.Level.rules self.old.switches.a.level) rule.now }
        ensures rules_b { M.Level.rules self.new.switches.b.level ≡ after_add (M.Level.rules self.old.switches.b.level) rule.now }
        ensures totals_a { self.new.switches.a.totals ≡ self.old.switches.a.totals }
        ensures totals_b { self.new.switches.b.totals ≡ self.old.switches.b.totals }
        ensures wrote { Wrote (is_ok result) self.old.book self.new.book (answer_line (at_line line) Add (add_answer (L.Level.rules self.old.switches.a.level) rule.now) (add_answer (M.Level.rules self.old.switches.b.level) rule.now)) }
        ensures differed { is_ok result ≡ true → self.new.book.differed ≡ differs_with self.old.book (add_answer (L.Level.rules self.old.switches.a.level) rule.now) (add_answer (M.Level.rules self.old.switches.b.level) rule.now) }
    {
        let answers = self.switches.add(rule);
        if accepted(&answers) {
            let RuleRecord { table, id, .. } = *rule;
            self.book.stands(RuleName { table, id })?;
        }
        self.book.answer(line, Verb::Add, answers)
    }

    // Answers `remove`.
    pub fn remove(&mut self, line: u64, name: RuleName) -> Result<(), AllocError>
        ensures rules_a { L.Level.rules self.new.switches.a.level ≡ after_remove (L.Level.rules self.old.switches.a.level) name.table name.id }
        ensures rules_b { M.Level.rules self.new.switches.b.level ≡ after_remove (M.Level.rules self.old.switches.b.level) name.table name.id }
        ensures totals_a { self.new.switches.a.totals ≡ self.old.switches.a.totals }
        ensures totals_b { self.new.switches.b.totals ≡ self.old.switches.b.totals }
        ensures wrote { Wrote (is_ok result) self.old.book self.new.book (answer_line (at_line line) Remove (remove_answer (L.Level.rules self.old.switches.a.level) name.table name.id) (remove_answer (M.Level.rules self.old.switches.b.level) name.table name.id)) }
        ensures differed { self.new.book.differed ≡ differs_with self.old.book (remove_answer (L.Level.rules self.old.switches.a.level) name.table name.id) (remove_answer (M.Level.rules self.old.switches.b.level) name.table name.id) }
    {
        let answers = self.switches.remove(name);
        if accepted(&answers) {
            self.book.leaves(name);
        }
        self.book.answer(line, Verb::Remove, answers)
    }

    // Answers `count`.
    pub fn count(&mut self, line: u64, name: RuleName) -> Result<(), AllocError>
        ensures rules_a { L.Level.rules self.new.switches.a.level ≡ L.Level.rules self.old.switches.a.level }
        ensures rules_b { M.Level.rules self.new.switches.b.level ≡ M.Level.rules self.old.switches.b.level }
        ensures totals_a { self.new.switches.a.totals ≡ self.old.switches.a.totals }
        ensures totals_b { self.new.switches.b.totals ≡ self.old.switches.b.totals }
        ensures wrote { Wrote (is_ok result) self.old.book self.new.book (answer_line (at_line line) Counts (count_answer (L.Level.rules self.old.switches.a.level) name.table name.id) (count_answer (M.Level.rules self.old.switches.b.level) name.table name.id)) }
        ensures differed { self.new.book.differed ≡ differs_with self.old.book (count_answer (L.Level.rules self.old.switches.a.level) name.table name.id) (count_answer (M.Level.rules self.old.switches.b.level) name.table name.id) }
    {
        let answers = self.switches.count(name);
        self.book.answer(line, Verb::Count, answers)
    }

    // Answers a frame.
    pub fn frame(&mut self, place: Place, port: u16, frame: &[u8]) -> Result<(), AllocError>
        ensures rules_a { L.Level.rules self.new.switches.a.level ≡ after_frame (L.Level.rules self.old.switches.a.level) port frame.now }
        ensures rules_b { M.Level.rules self.new.switches.b.level ≡ after_frame (M.Level.rules self.old.switches.b.level) port frame.now }
        ensures wrote { (m : ℕ) × (n : ℕ) × Wrote (is_ok result) self.old.book self.new.book (frame_line place (frame_answer (L.Level.rules self.old.switches.a.level) port frame.now) (frame_answer (M.Level.rules self.old.switches.b.level) port frame.now) m n) × (self.new.switches.a.totals ≡ changed (refusal port frame.now) (totals-after self.old.switches.a.totals m) self.old.switches.a.totals) × (self.new.switches.b.totals ≡ changed (refusal port frame.now) (totals-after self.old.switches.b.totals n) self.old.switches.b.totals) }
        ensures differed { self.new.book.differed ≡ differs_with self.old.book (frame_answer (L.Level.rules self.old.switches.a.level) port frame.now) (frame_answer (M.Level.rules self.old.switches.b.level) port frame.now) }
    {
        let Sides { a, b } = self.switches.frame(port, frame);
        let answers = Sides {
            a: a.map(|f| Reply::Ports(f.ports)),
            b: b.map(|f| Reply::Ports(f.ports)),
        };
        // a frame that is refused has no depth
        let depths = Sides {
            a: a.map_or(0, |f| f.depth),
            b: b.map_or(0, |f| f.depth),
        };
        self.book.note(&answers);
        frame_line(&mut self.book.page, place, answers, depths)
    }

    // Answers `peek`.
    pub fn peek(&mut self, line: u64, port: u16, frame: &[u8]) -> Result<(), AllocError>
        ensures switches { self.new.switches ≡ self.old.switches }
        ensures wrote { (m : List ℕ) × (n : List ℕ) × Wrote (is_ok result) self.old.book self.new.book (peek_line (at_line line) (frame_answer (L.Level.rules self.old.switches.a.level) port frame.now) (frame_answer (M.Level.rules self.old.switches.b.level) port frame.now) m n) × Masks (L.Level.rules self.old.switches.a.level) port frame.now m × Masks (M.Level.rules self.old.switches.b.level) port frame.now n }
        ensures differed { self.new.book.differed ≡ differs_with self.old.book (frame_answer (L.Level.rules self.old.switches.a.level) port frame.now) (frame_answer (M.Level.rules self.old.switches.b.level) port frame.now) }
    {
        self.book.peek(&self.switches, line, port, frame)
    }

    // Answers `totals`.
    pub fn totals(&mut self, line: u64) -> Result<(), AllocError>
        ensures switches { self.new.switches ≡ self.old.switches }
        ensures wrote { Wrote (is_ok result) self.old.book self.new.book (totals_line (at_line line) self.old.switches.a.totals self.old.switches.b.totals) }
        ensures differed { self.new.book.differed ≡ self.old.book.differed }
    {
        self.book.totals(&self.switches, line)
    }

    // The count of each standing rule.
    pub fn report(&mut self, line: u64) -> Result<(), AllocError>
        ensures rules_a { L.Level.rules self.new.switches.a.level ≡ L.Level.rules self.old.switches.a.level }
        ensures rules_b { M.Level.rules self.new.switches.b.level ≡ M.Level.rules self.old.switches.b.level }
        ensures totals_a { self.new.switches.a.totals ≡ self.old.switches.a.totals }
        ensures totals_b { self.new.switches.b.totals ≡ self.old.switches.b.totals }
    {
        let place = Place { line, frame: None };
        for name in self.book.standing.iter() {
            let answers = self.switches.count(*name);
            self.book.differed = self.book.differed || answers.a != answers.b;
            report_line(&mut self.book.page, place, *name, answers)?;
        }
        Ok(())
    }
}
