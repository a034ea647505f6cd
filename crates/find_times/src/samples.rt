// Rules and keys to measure with. bench/find.rs makes the same.
use std::alloc::{AllocFailed, Global};

// A linear congruential generator.
#[derive(Clone, Copy)]
pub struct Random {
    pub state: u64,
}

impl Random {
    pub fn byte(&mut self) -> u8 {
        self.state = self
            .state
            .wrapping_mul(6364136223846793005)
            .wrapping_add(1442695040888963407);
        (self.state >> 56) as u8
    }

    fn row(&mut self) -> [u8; 36] {
        let mut row = flow::empty_mask();
        for byte in &mut row {
            *byte = self.byte();
        }
        row
    }

    // The key of a UDP frame.
    pub fn key(&mut self) -> [u8; 36] {
        let mut key = self.row();
        key[14] = 8;
        key[15] = 0;
        key[19] = 17;
        key
    }
}

#[derive(Clone, Copy)]
pub struct Sample {
    pub priority: u16,
    pub mask: [u8; 36],
    pub value: [u8; 36],
}

// Type, protocol and a network of 17 to 32 bits; with and without the ports.
fn mask_of(tuple: u8) -> [u8; 36] {
    let mut mask = flow::empty_mask();
    mask[14] = 0xff;
    mask[15] = 0xff;
    mask[19] = 0xff;
    mask[24] = 0xff;
    mask[25] = 0xff;
    let net = 0xffffu16 << (tuple % 16);
    mask[26] = (net >> 8) as u8;
    mask[27] = (net % 256) as u8;
    if tuple & 16 != 0 {
        mask[32] = 0xff;
        mask[33] = 0xff;
    }
    if tuple & 32 != 0 {
        mask[34] = 0xff;
        mask[35] = 0xff;
    }
    mask
}

// 64 rules in so many tuples. Each tuple has a rank of its own.
pub fn rules(
    heap: Global,
    random: &mut Random,
    tuples: u8,
) -> Result<Vec<Sample>, AllocFailed<Sample>> {
    let mut rules = Vec::new(heap);
    for i in 0..64u8 {
        let tuple = if tuples == 0 { 0 } else { i % tuples };
        let mask = mask_of(tuple);
        rules.push(Sample {
            priority: u16::from(tuple) + 1,
            mask,
            value: flow::masked(&mask, &random.key()),
        })?;
    }
    Ok(rules)
}

// A key that the rule matches.
fn key_for(rule: &Sample, random: &mut Random) -> [u8; 36] {
    let mut key = random.key();
    for ((byte, mask), value) in key.iter_mut().zip(&rule.mask).zip(&rule.value) {
        *byte = (*byte & !mask) | value;
    }
    key
}

// Whether the keys are made for the rules.
#[derive(Clone, Copy)]
pub enum Aim {
    Hit,
    Miss,
    Mixed,
}

// So many keys.
pub fn keys(
    heap: Global,
    random: &mut Random,
    rules: &[Sample],
    aim: Aim,
    count: usize,
) -> Result<Vec<[u8; 36]>, AllocFailed<[u8; 36]>> {
    let mut keys = Vec::new(heap);
    for _ in 0..count {
        let draw = random.byte();
        let hit = match aim {
            Aim::Hit => true,
            Aim::Miss => false,
            Aim::Mixed => draw >= 128,
        };
        match rules.get(usize::from(draw % 64)) {
            Some(rule) if hit => keys.push(key_for(rule, random))?,
            _ => keys.push(random.key())?,
        }
    }
    Ok(keys)
}
