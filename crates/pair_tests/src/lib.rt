// Tests of two switches that do not agree: B begins with a rule that A has not.
#![tactic(auto)]

#[cfg(test)]
mod tests {
    use classifier::{Classifier, Linear};
    use datapath::level::Level;
    use datapath::{RuleName, RuleRecord, Tables};
    use pair::book::Book;
    use pair::session::Session;
    use pair::switches::Switches;
    use refusal::Refusal;
    use sides::Sides;
    use std::test::Fail;
    use switch::Switch;
    use text::answer::{Reply, Verb, answer_line, word_line};
    use text::place::Place;

    // Every frame goes to port 2.
    fn rule() -> RuleRecord {
        RuleRecord {
            table: 0,
            id: 1,
            priority: 0,
            mask: [0; 36],
            value: [0; 36],
            ports: 4,
            next: 0,
        }
    }

    fn text_of(book: &Book) -> Result<&str, Fail> {
        match std::str::from_utf8(book.page.as_slice()) {
            Ok(text) => Ok(text),
            Err(_) => Err(Fail::new("no text")),
        }
    }

    fn verdict_of(rt: &HostRuntime, book: &Book) -> Result<String, Fail> {
        match book.verdict() {
            Ok(()) => Ok(format!(in rt.alloc(); "agreed")?),
            Err(fault) => Ok(format!(in rt.alloc(); "{fault}")?),
        }
    }

    #[test]
    fn differing_answers(rt: HostRuntime) -> Result<(), Fail> {
        let a = Tables::<Linear>::new(rt.alloc(), ())?;
        let b = Tables::<Linear>::new(rt.alloc(), ())?;
        let mut session = Session {
            switches: Switches {
                a: Switch::new(a),
                b: Switch::new(b),
            },
            book: Book::new(rt.alloc(), 100)?,
        };
        if session.switches.b.add(&rule()).is_err() {
            return Err(Fail::new("the rule is refused"));
        }
        let frame = [0u8; 14];
        let place = Place {
            line: 9,
            frame: Some(3),
        };
        session.frame(place, 1, &frame)?;
        session.peek(10, 1, &frame)?;
        session.add(11, &rule())?;
        session.count(12, RuleName { table: 0, id: 1 })?;
        session.report(13)?;
        assert_eq!(rt;
            text_of(&session.book)?,
            "9.3 frame: differ A=ports=none B=ports=2\n10 peek: differ A=ports=none B=ports=2\n11 add: differ A=ok B=refused 9 (1)\n12 count: differ A=count=0 B=count=1\n13 report: table=0 id=1 differ A=count=0 B=count=1\n"
        );
        assert_eq!(rt;
            verdict_of(&rt, &session.book)?.as_str(),
            "the switches A and B gave different answers"
        );
        Ok(())
    }

    #[test]
    fn agreeing_answers(rt: HostRuntime) -> Result<(), Fail> {
        let a = Tables::<Linear>::new(rt.alloc(), ())?;
        let b = Tables::<Linear>::new(rt.alloc(), ())?;
        let mut session = Session {
            switches: Switches {
                a: Switch::new(a),
                b: Switch::new(b),
            },
            book: Book::new(rt.alloc(), 100)?,
        };
        session.add(1, &rule())?;
        session.add(2, &rule())?;
        assert_eq!(rt;
            text_of(&session.book)?,
            "1 add: ok\n2 add: refused 9 (1)\n"
        );
        assert_eq!(rt; verdict_of(&rt, &session.book)?.as_str(), "agreed");
        Ok(())
    }

    #[test]
    fn answer_lines(rt: HostRuntime) -> Result<(), Fail> {
        let mut book = Book::new(rt.alloc(), 100)?;
        let place = Place {
            line: 9,
            frame: None,
        };
        let refused = Refusal {
            number: 11,
            detail: 7,
        };
        let page = &mut book.page;
        let added = Sides {
            a: Ok(Reply::Done),
            b: Err(refused),
        };
        answer_line(page, place, Verb::Add, added)?;
        let counted = Sides {
            a: Ok(Reply::Count(17)),
            b: Ok(Reply::Count(17)),
        };
        answer_line(page, place, Verb::Count, counted)?;
        assert_eq!(rt;
            text_of(&book)?,
            "9 add: differ A=ok B=refused 11 (7)\n9 count: count=17\n"
        );
        Ok(())
    }

    #[test]
    fn lines_of_any_word(rt: HostRuntime) -> Result<(), Fail> {
        let mut book = Book::new(rt.alloc(), 100)?;
        let place = Place {
            line: 9,
            frame: Some(2),
        };
        let page = &mut book.page;
        let done = Sides {
            a: Ok(Reply::Done),
            b: Ok(Reply::Done),
        };
        word_line(page, place, "credit", done)?;
        let differing = Sides {
            a: Ok(Reply::Ports(6)),
            b: Ok(Reply::Count(0)),
        };
        word_line(page, place, "", differing)?;
        assert_eq!(rt;
            text_of(&book)?,
            "9.2 credit: ok\n9.2 : differ A=ports=1,2 B=count=0\n"
        );
        Ok(())
    }
}
