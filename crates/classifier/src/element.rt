// Rules as the elements of a tuple.
ghost use Rattle.std.specs.Prelude.{true};
ghost use Rattle.classifier.specs.Found.{found_of};

use super::rule::{Match, Rule};
use search::Element;

// A rule that the search of a tuple found: its identity, and its priority.
#[derive(Clone, Copy)]
pub struct Found {
    pub priority: u16,
    pub rule: Match,
}

// Every rule may answer, and its rank is its priority.
impl Element for Rule {
    type Answer = Found;

    ghost level = { λ r. r.priority };

    ghost may = { λ _. true };

    ghost masks = { λ r. r.mask };

    ghost values = { λ r. r.value };

    ghost says = { found_of };

    fn rank(&self) -> u16 {
        self.priority
    }

    fn may_answer(&self) -> bool {
        true
    }

    fn mask(&self) -> &[u8; 36] {
        &self.mask
    }

    fn value(&self) -> &[u8; 36] {
        &self.value
    }

    fn answer(&self) -> Found {
        Found {
            priority: self.priority,
            rule: self.name(),
        }
    }
}
