// The fields of a key, and the bytes that they have in it.
ghost use Rattle.std.specs.Prelude.{◌≡◌, ◌+◌, ◌^◌, ◌≤◌};
ghost use Rattle.rule.specs.Forms.{len_of, full_of};

// How a field's value is written, and so how many bytes it has.
#[derive(Debug, Clone, Copy, PartialEq, Eq)]
pub enum Form {
    // a number of one byte, and of two
    Byte,
    Word,
    // an address of IPv4, and of a network card
    Quad,
    Mac,
}

impl Form {
    // How many bytes a field has.
    pub fn len(self) -> usize
        ensures { result ≡ len_of self }
    {
        match self {
            Form::Byte => 1,
            Form::Word => 2,
            Form::Quad => 4,
            Form::Mac => 6,
        }
    }

    // The largest number that they hold.
    pub fn full(self) -> u64
        ensures { result ≡ full_of self }
    {
        (1u64 << (8 * self.len())) - 1
    }
}

// A field: its first byte in the key, and its form.
#[derive(Debug, Clone, Copy, PartialEq, Eq)]
pub struct Field {
    pub at: usize,
    pub form: Form,
    pub ghost inside: { at + len_of form ≤ 36 },
}

impl Field {
    ghost use Rattle.rule.specs.Fields.{field};
    ghost use Rattle.rule.specs.Rows.{with_number};

    pub(crate) fn new(at: usize, form: Form) -> Field
        requires { at + len_of form ≤ 36 }
        ensures { (inside : at + len_of form ≤ 36) → result ≡ field at form inside }
    {
        Field { at, form }
    }

    // The field's place as a bit.
    pub(crate) fn bit(self) -> u64
        ensures { result ≡ 2 ^ self.at }
    {
        1u64 << self.at
    }

    // Writes the field's number into a row, most significant byte first; the rest stays.
    pub(crate) fn put(self, row: &mut [u8; 36], n: u64)
        ensures { row.new ≡ with_number self n row.old }
    {
        let bytes = n.to_be_bytes();
        let len = self.form.len();
        row[self.at..self.at + len].copy_from_slice(&bytes[8 - len..]);
    }
}
