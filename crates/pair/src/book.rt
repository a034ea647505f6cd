// What a run keeps beside the switches: the lines to be written, the rules that stand, and whether the switches ever differed.
ghost use Rattle.std.specs.Prelude.{◌≡◌, false, not, [], is_ok, IfOk};
ghost use Rattle.text.specs.Answers.{answer_line};
ghost use Rattle.pair.specs.Books.{lines, Wrote, differs_with, at_line};

use datapath::RuleName;
use sides::Sides;
use std::alloc::{AllocError, Global};
use std::collections::BTreeSet;
use std::fmt;
use text::answer::{Answer, Verb, answer_line};
use text::page::Page;
use text::place::Place;

#[derive(Drop)]
pub struct Book {
    // the lines to be written
    pub page: Page,
    // the rules that stand
    pub(crate) standing: BTreeSet<RuleName>,
    pub(crate) differed: bool,
}

// The two switches gave different answers.
#[derive(Debug, Clone, Copy)]
pub struct Differ;

impl fmt::Display for Differ {
    fn fmt<W: fmt::Write>(&self, f: &mut fmt::Formatter<W>) -> fmt::Result {
        write!(f, "the switches A and B gave different answers")
    }
}

impl Book {
    // A book with room for so many bytes.
    pub fn new(heap: Global, room: usize) -> Result<Book, AllocError>
        ensures { IfOk result (λ b. (lines b ≡ []) × (b.differed ≡ false)) }
    {
        Ok(Book {
            page: Page::new(heap, room)?,
            standing: BTreeSet::new(heap),
            differed: false,
        })
    }

    // A rule stands.
    pub(crate) fn stands(&mut self, name: RuleName) -> Result<(), AllocError>
        ensures page { self.new.page ≡ self.old.page }
        ensures differed { self.new.differed ≡ self.old.differed }
    {
        self.standing.insert(name)?;
        Ok(())
    }

    // It stands no more.
    pub(crate) fn leaves(&mut self, name: RuleName)
        ensures page { self.new.page ≡ self.old.page }
        ensures differed { self.new.differed ≡ self.old.differed }
    {
        self.standing.remove(&name);
    }

    // Notes whether the two answers differ.
    pub(crate) fn note(&mut self, answers: &Sides<Answer>)
        ensures page { self.new.page ≡ self.old.page }
        ensures standing { self.new.standing ≡ self.old.standing }
        ensures differed { self.new.differed ≡ differs_with self.old answers.now.a answers.now.b }
    {
        self.differed = self.differed || answers.a != answers.b;
    }

    // Writes a line that is not a frame's or a peek's.
    pub(crate) fn answer(
        &mut self,
        line: u64,
        verb: Verb,
        answers: Sides<Answer>,
    ) -> Result<(), AllocError>
        ensures wrote { Wrote (is_ok result) self.old self.new (answer_line (at_line line) verb answers.a answers.b) }
        ensures standing { self.new.standing ≡ self.old.standing }
        ensures differed { self.new.differed ≡ differs_with self.old answers.a answers.b }
    {
        self.note(&answers);
        answer_line(&mut self.page, Place { line, frame: None }, verb, answers)
    }

    // Whether the switches agreed in every answer.
    pub fn verdict(&self) -> Result<(), Differ>
        ensures { is_ok result ≡ not self.now.differed }
    {
        if self.differed { Err(Differ) } else { Ok(()) }
    }
}
