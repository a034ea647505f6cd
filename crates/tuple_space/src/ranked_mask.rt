// A tuple: a mask that some standing rules have, with its rank, the highest priority of these rules.
#[derive(Clone, Copy)]
pub struct RankedMask {
    pub mask: [u8; 36],
    pub rank: u16,
}
