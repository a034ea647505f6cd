// Why the tables refuse. A classifier's fault lies whole inside.
ghost use Rattle.std.specs.Prelude.{◌≡◌};
ghost use Rattle.datapath.specs.Faults.{refusal_of};
ghost use Rattle.datapath.specs.declared.fault.TablesFault.TheVariants.{Outside, Within};

use classifier::ClassifierFault;
use flow::OutsideMask;
use refusal::Refusal;

#[derive(Debug, Clone, Copy, PartialEq, Eq)]
pub enum TablesFault {
    // the table is above 3
    Table(u32),
    // the value has a bit outside the mask, first in this byte
    Outside(usize),
    // port bit 0 is set
    PortZero,
    // the next table is neither 0 nor above the rule's own and at most 3
    Next(u16),
    // the table's classifier refuses
    Within(ClassifierFault),
}

impl From<ClassifierFault> for TablesFault {
    ghost from_gives = { λ f r. r ≡ Within f };

    fn from(fault: ClassifierFault) -> TablesFault {
        TablesFault::Within(fault)
    }
}

impl From<OutsideMask> for TablesFault {
    ghost from_gives = { λ f r. r ≡ Outside f.byte };

    fn from(fault: OutsideMask) -> TablesFault {
        TablesFault::Outside(fault.byte)
    }
}

// The refusal's number and detail.
impl From<TablesFault> for Refusal {
    ghost from_gives = { λ f r. (r.number, r.detail) ≡ refusal_of f };

    fn from(fault: TablesFault) -> Refusal {
        match fault {
            TablesFault::Table(table) => Refusal {
                number: 5,
                detail: u64::from(table),
            },
            TablesFault::Outside(byte) => Refusal {
                number: 6,
                detail: byte as u64,
            },
            TablesFault::PortZero => Refusal {
                number: 7,
                detail: 0,
            },
            TablesFault::Next(next) => Refusal {
                number: 8,
                detail: u64::from(next),
            },
            TablesFault::Within(fault) => Refusal::from(fault),
        }
    }
}
