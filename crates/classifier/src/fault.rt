// Why a classifier refuses.
ghost use Rattle.std.specs.Prelude.{◌≡◌};
ghost use Rattle.classifier.specs.Faults.{refusal_of};

use refusal::Refusal;

#[derive(Debug, Clone, Copy, PartialEq, Eq)]
pub enum ClassifierFault {
    // a rule with this id stands in the table
    Stands(u32),
    // 64 rules stand in the table
    Full,
    // the standing rule of this id, the smallest such, has the same priority and overlaps
    Overlaps(u32),
    // no rule with this id stands
    Missing(u32),
}

// The refusal's number and detail: an id, or the limit.
impl From<ClassifierFault> for Refusal {
    ghost from_gives = { λ f r. (r.number, r.detail) ≡ refusal_of f };

    fn from(fault: ClassifierFault) -> Refusal {
        match fault {
            ClassifierFault::Stands(id) => Refusal {
                number: 9,
                detail: u64::from(id),
            },
            ClassifierFault::Full => Refusal {
                number: 10,
                detail: 64,
            },
            ClassifierFault::Overlaps(id) => Refusal {
                number: 11,
                detail: u64::from(id),
            },
            ClassifierFault::Missing(id) => Refusal {
                number: 12,
                detail: u64::from(id),
            },
        }
    }
}
