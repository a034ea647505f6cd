// Why a switch refuses. A frame's fault and the tables' fault lie whole inside.
ghost use Rattle.std.specs.Prelude.{◌≡◌};
ghost use Rattle.switch.specs.Faults.{refusal_of};
ghost use Rattle.switch.specs.declared.fault.SwitchFault.TheVariants.{Frame, Tables};

use datapath::TablesFault;
use packet::FrameFault;
use refusal::Refusal;

#[derive(Debug, Clone, Copy, PartialEq, Eq)]
pub enum SwitchFault {
    // the frame is not read
    Frame(FrameFault),
    // the tables refuse
    Tables(TablesFault),
}

impl From<FrameFault> for SwitchFault {
    ghost from_gives = { λ f r. r ≡ Frame f };

    fn from(fault: FrameFault) -> SwitchFault {
        SwitchFault::Frame(fault)
    }
}

impl From<TablesFault> for SwitchFault {
    ghost from_gives = { λ f r. r ≡ Tables f };

    fn from(fault: TablesFault) -> SwitchFault {
        SwitchFault::Tables(fault)
    }
}

// The refusal's number and detail.
impl From<SwitchFault> for Refusal {
    ghost from_gives = { λ f r. (r.number, r.detail) ≡ refusal_of f };

    fn from(fault: SwitchFault) -> Refusal {
        match fault {
            SwitchFault::Frame(fault) => Refusal::from(fault),
            SwitchFault::Tables(fault) => Refusal::from(fault),
        }
    }
}
