// A refusal as callers outside see it.
#![tactic(auto)]

ghost use Rattle.std.specs.Prelude.{Some};
ghost use Rattle.refusal.specs.Texts.{refusal_text};

use std::fmt;

// The refusal's number, and what it says beside it: a port, a length, an id or a limit.
#[derive(Debug, Clone, Copy, PartialEq, Eq)]
pub struct Refusal {
    pub number: u8,
    pub detail: u64,
}

impl fmt::Display for Refusal {
    ghost output = { λ r. Some (refusal_text r.number r.detail) };

    fn fmt<W: fmt::Write>(&self, f: &mut fmt::Formatter<W>) -> fmt::Result {
        write!(f, "refused {} ({})", self.number, self.detail)
    }
}
