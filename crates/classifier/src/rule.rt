// A rule of one table, and what a find says of one.
use flow::MaskedKey;

// A rule with its count. The mask and the value are plain bytes; no value bit lies outside the mask.
#[derive(Clone, Copy)]
pub struct Rule {
    pub id: u32,
    pub priority: u16,
    pub mask: [u8; 36],
    pub value: [u8; 36],
    // bit p for port p
    pub ports: u64,
    // the table that follows, 0 for none
    pub next: u16,
    pub count: u64,
}

// A rule that is to stand.
#[derive(Clone, Copy)]
pub struct NewRule {
    pub id: u32,
    pub priority: u16,
    pub key: MaskedKey,
    pub ports: u64,
    pub next: u16,
}

// A rule that was found: its id, and where a frame goes that crosses it.
#[derive(Clone, Copy)]
pub struct Match {
    pub id: u32,
    pub ports: u64,
    pub next: u16,
}

// The rule that decides a key, if one matches, and a mask: every key that agrees with the key in its bits finds the same.
#[derive(Clone, Copy)]
pub struct Find {
    pub rule: Option<Match>,
    pub mask: [u8; 36],
}
