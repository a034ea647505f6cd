// The texts of a place, a word and a reply, for a caller's own formatting. The lines of this crate are made without them, by the
// pieces in `put` and beside the lines: a `Display` may give an error at any piece, and takes longer.
ghost use Rattle.std.specs.Prelude.{Some};
ghost use Rattle.text.specs.Answers.{ports_text, reply_text, verb_text};
ghost use Rattle.text.specs.Lines.{place_text};

use super::answer::{Reply, Verb};
use super::place::Place;
use std::fmt;

impl fmt::Display for Place {
    ghost output = { λ p. Some (place_text p) };

    #[tactic(auto, unfolding(crate::specs::Lines::place_text, crate::specs::Texts::decimal_text))]
    fn fmt<W: fmt::Write>(&self, f: &mut fmt::Formatter<W>) -> fmt::Result {
        match self.frame {
            Some(frame) => write!(f, "{}.{frame}", self.line),
            None => self.line.fmt(f),
        }
    }
}

impl fmt::Display for Verb {
    ghost output = { λ v. Some (verb_text v) };

    fn fmt<W: fmt::Write>(&self, f: &mut fmt::Formatter<W>) -> fmt::Result {
        f.write_str(match self {
            Verb::Add => "add",
            Verb::Remove => "remove",
            Verb::Count => "count",
            Verb::Frame => "frame",
            Verb::Peek => "peek",
            Verb::Totals => "totals",
            Verb::Report => "report",
        })
    }
}

// The ports of a set, with commas between, or none.
#[derive(Clone, Copy)]
struct Ports(u64);

impl fmt::Display for Ports {
    ghost output = { λ p. Some (ports_text p.0) };

    #[tactic(auto, unfolding(crate::specs::Answers::ports_text, crate::specs::Texts::decimal_text))]
    fn fmt<W: fmt::Write>(&self, f: &mut fmt::Formatter<W>) -> fmt::Result {
        let Ports(set) = *self;
        if set == 0 {
            return f.write_str("none");
        }
        let mut below = 0u32;
        while below < 64 && set >> below != 0 {
            let port = below + (set >> below).trailing_zeros();
            if set % (1u64 << port) != 0 {
                f.write_str(",")?;
            }
            port.fmt(f)?;
            below = port + 1;
        }
        Ok(())
    }
}

impl fmt::Display for Reply {
    ghost output = { λ r. Some (reply_text r) };

    #[tactic(auto, unfolding(crate::specs::Texts::decimal_text))]
    fn fmt<W: fmt::Write>(&self, f: &mut fmt::Formatter<W>) -> fmt::Result {
        match self {
            Reply::Done => f.write_str("ok"),
            Reply::Count(n) => write!(f, "count={n}"),
            Reply::Ports(set) => {
                f.write_str("ports=")?;
                Ports(*set).fmt(f)
            }
        }
    }
}
