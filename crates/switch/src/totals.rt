// What a switch counts of the frames that it decides.
ghost use Rattle.std.specs.Prelude.{◌≡◌, ◌≤◌};
ghost use Rattle.switch.specs.Totals.{after_frame};

// How many frames were decided, and at which depth, each modulo 2^64.
#[derive(Debug, Clone, Copy, PartialEq, Eq, Default)]
pub struct Totals {
    pub frames: u64,
    pub depth1: u64,
    pub depth2: u64,
    pub deeper: u64,
}

impl Totals {
    // One frame more, decided at this depth.
    pub(crate) fn note(self, depth: u8) -> Totals
        requires { 1 ≤ depth }
        ensures { result ≡ after_frame self depth }
    {
        let mut totals = self;
        totals.frames = totals.frames.wrapping_add(1);
        match depth {
            1 => totals.depth1 = totals.depth1.wrapping_add(1),
            2 => totals.depth2 = totals.depth2.wrapping_add(1),
            _ => totals.deeper = totals.deeper.wrapping_add(1),
        }
        totals
    }
}
