// Why a frame is not read.
ghost use Rattle.std.specs.Prelude.{◌≡◌};
ghost use Rattle.packet.specs.Faults.{refusal_of};

use refusal::Refusal;

#[derive(Debug, Clone, Copy, PartialEq, Eq)]
pub enum FrameFault {
    // the in-port is not 1 to 63
    InPort(u16),
    // the frame has fewer than 14 bytes
    Short(usize),
    // the frame has more than 9,216 bytes
    Long(usize),
    // the frame has a tag and fewer than 18 bytes
    ShortTagged(usize),
}

// The refusal's number and detail: the port, or the frame's length.
impl From<FrameFault> for Refusal {
    ghost from_gives = { λ f r. (r.number, r.detail) ≡ refusal_of f };

    fn from(fault: FrameFault) -> Refusal {
        match fault {
            FrameFault::InPort(port) => Refusal {
                number: 1,
                detail: u64::from(port),
            },
            FrameFault::Short(len) => Refusal {
                number: 2,
                detail: len as u64,
            },
            FrameFault::Long(len) => Refusal {
                number: 3,
                detail: len as u64,
            },
            FrameFault::ShortTagged(len) => Refusal {
                number: 4,
                detail: len as u64,
            },
        }
    }
}
