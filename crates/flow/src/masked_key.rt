// A mask with a value that has no bit outside it.
ghost use Rattle.std.specs.Prelude.{◌≡◌};
ghost use Rattle.flow.specs.Masks.{Within};

mod methods;

#[derive(Clone, Copy)]
pub struct MaskedKey {
    mask: [u8; 36],
    value: [u8; 36],
    ghost fits: { Within value mask },
}

// A value has a bit outside its mask; `byte` is the first byte with such a bit.
#[derive(Debug, Clone, Copy, PartialEq, Eq)]
pub struct OutsideMask {
    pub byte: usize,
}
