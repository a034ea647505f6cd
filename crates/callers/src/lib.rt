// What stands in a caller's own crate: a classifier and an element made of others, structs that hold tables and tuples of these, and
// functions that promise what a caller learns from calls of the other crates.
#![tactic(auto)]

pub mod calls;
pub mod four;
pub mod tables;
pub mod texts;
pub mod tuples;

#[cfg(test)]
mod tests {
    use super::calls::credit_marks;
    use super::four::{HeldFour, frame_of_four, ports_of_held};
    use super::tables::{Held, Lent, Perhaps};
    use super::texts::{place_shown, reply_shown, verb_shown};
    use arrayvec::ArrayVec;
    use classifier::Linear;
    use datapath::level::Level;
    use datapath::{Four, Mark, RuleName, RuleRecord, Tables};
    use std::test::Fail;
    use switch::Switch;
    use text::answer::{Reply, Verb};
    use text::place::Place;

    // A key of table 0 goes to port 2.
    fn rule() -> RuleRecord {
        RuleRecord {
            table: 0,
            id: 1,
            priority: 0,
            mask: [0; 36],
            value: [0; 36],
            ports: 4,
            next: 0,
        }
    }

    #[test]
    fn held_tables(rt: HostRuntime) -> Result<(), Fail> {
        let mut held: Held<Linear> = Held::new(rt.alloc(), ())?;
        assert_eq!(rt; held.tables.classifiers().len(), 4);
        assert_eq!(rt; held.ports(&[0; 36]), 0);
        if held.tables.add(&rule()).is_err() {
            return Err(Fail::new("the rule is refused"));
        }
        assert_eq!(rt; held.ports(&[0; 36]), 4);
        Ok(())
    }

    #[test]
    fn lent_tables(rt: HostRuntime) -> Result<(), Fail> {
        let held: Held<Linear> = Held::new(rt.alloc(), ())?;
        let lent = Lent {
            tables: &held.tables,
        };
        assert_eq!(rt; lent.tables.peek(&[0; 36]).ports, 0);
        let none: Perhaps<Linear> = Perhaps { tables: None };
        assert!(rt; none.tables.is_none());
        Ok(())
    }

    // The rule's name, and its mark in a walk.
    const NAME: RuleName = RuleName { table: 0, id: 1 };

    const MARK: Mark = Mark {
        table: 0,
        id: 1,
        ports: 4,
        next: 0,
    };

    #[test]
    fn four_as_a_level(rt: HostRuntime) -> Result<(), Fail> {
        let mut four: Four<Linear> = Four::new(rt.alloc(), ())?;
        let level = &mut four;
        if Level::add(level, &rule()).is_err() {
            return Err(Fail::new("the rule is refused"));
        }
        assert_eq!(rt; level.peek(&[0; 36]).ports, 4);
        let decision = level.decide(&[0; 36]);
        assert_eq!(rt; decision.ports, 4);
        assert_eq!(rt; decision.depth, 1);
        level.credit(&[0; 36], 3);
        assert!(rt; Level::count(level, NAME) == Ok(4));
        assert_eq!(rt; level.revalidate(9), 0);
        assert_eq!(rt; level.evict(), 0);
        assert!(rt; Level::remove(level, NAME).is_ok());
        assert!(rt; Level::count(level, NAME).is_err());
        assert_eq!(rt; level.peek(&[0; 36]).ports, 0);
        Ok(())
    }

    #[test]
    fn four_by_its_own_calls(rt: HostRuntime) -> Result<(), Fail> {
        let mut four: Four<Linear> = Four::new(rt.alloc(), ())?;
        assert_eq!(rt; four.walk(&[0; 36]).crossed.len(), 0);
        if four.add(&rule()).is_err() {
            return Err(Fail::new("the rule is refused"));
        }
        let walk = four.walk(&[0; 36]);
        assert_eq!(rt; walk.ports, 4);
        assert_eq!(rt; walk.crossed.len(), 1);
        assert_eq!(rt; four.pass(&[0; 36], 2).ports, 4);
        four.credit_along(&walk, 3);
        assert!(rt; four.count(NAME) == Ok(5));
        assert!(rt; four.remove(NAME).is_ok());
        assert_eq!(rt; four.walk(&[0; 36]).crossed.len(), 0);
        Ok(())
    }

    #[test]
    fn four_in_a_switch(rt: HostRuntime) -> Result<(), Fail> {
        let four: Four<Linear> = Four::new(rt.alloc(), ())?;
        let mut switch = Switch::new(four);
        if switch.add(&rule()).is_err() {
            return Err(Fail::new("the rule is refused"));
        }
        match frame_of_four(&mut switch, 1, &[0; 14]) {
            Ok(forwarded) => assert_eq!(rt; forwarded.ports, 4),
            Err(_) => return Err(Fail::new("the frame is refused")),
        }
        assert!(rt; frame_of_four(&mut switch, 1, &[0; 13]).is_err());
        assert!(rt; switch.count(NAME) == Ok(1));
        Ok(())
    }

    #[test]
    fn four_held(rt: HostRuntime) -> Result<(), Fail> {
        let mut held: HeldFour<Linear> = HeldFour {
            four: Four::new(rt.alloc(), ())?,
        };
        assert_eq!(rt; ports_of_held(&held, &[0; 36]), 0);
        if held.four.add(&rule()).is_err() {
            return Err(Fail::new("the rule is refused"));
        }
        assert_eq!(rt; ports_of_held(&held, &[0; 36]), 4);
        Ok(())
    }

    #[test]
    fn marks_of_a_caller(rt: HostRuntime) -> Result<(), Fail> {
        let mut tables: Tables<Linear> = Tables::new(rt.alloc(), ())?;
        if tables.add(&rule()).is_err() {
            return Err(Fail::new("the rule is refused"));
        }
        let walk = tables.walk(&[1; 36]);
        tables.credit_along(&walk, 9);
        assert_eq!(rt; tables.pass(&[1; 36], 0).crossed.len(), 1);
        assert!(rt; tables.count(NAME) == Ok(9));
        let mut marks: ArrayVec<Mark, 4> = ArrayVec::new();
        marks.push(MARK);
        credit_marks(&mut tables, &marks, 5);
        marks.push(MARK);
        credit_marks(&mut tables, &marks, 3);
        assert!(rt; tables.count(NAME) == Ok(20));
        Ok(())
    }

    #[test]
    fn shown_texts(rt: HostRuntime) -> Result<(), Fail> {
        let framed = Place {
            line: 9,
            frame: Some(3),
        };
        let plain = Place {
            line: 10,
            frame: None,
        };
        assert_eq!(rt; place_shown(rt.alloc(), framed)?.as_str(), "9.3");
        assert_eq!(rt; place_shown(rt.alloc(), plain)?.as_str(), "10");
        assert_eq!(rt; verb_shown(rt.alloc(), Verb::Totals)?.as_str(), "totals");
        assert_eq!(rt; reply_shown(rt.alloc(), Reply::Done)?.as_str(), "ok");
        assert_eq!(rt;
            reply_shown(rt.alloc(), Reply::Count(7))?.as_str(),
            "count=7"
        );
        assert_eq!(rt;
            reply_shown(rt.alloc(), Reply::Ports(0))?.as_str(),
            "ports=none"
        );
        assert_eq!(rt;
            reply_shown(rt.alloc(), Reply::Ports(262))?.as_str(),
            "ports=1,2,8"
        );
        Ok(())
    }
}
