// The fields as a rule names them, and what its words write into the bytes of a mask and of a value.
ghost use Rattle.std.specs.Prelude.{◌≡◌};
ghost use Rattle.rule.specs.Fields.{field_named};
ghost use Rattle.rule.specs.Rows.{said, set_answer, rows_after};

use super::field::{Field, Form};
use super::parts::cut;
use super::value::{mask, value};

// The field of a name, by the names of a key's line.
#[tactic(auto, unfolding(crate::specs::Fields::field_named))]
pub fn field_of(name: &str) -> Option<Field>
    ensures { result ≡ field_named name.now }
{
    match name {
        "in_port" => Some(Field::new(0, Form::Word)),
        "dl_dst" => Some(Field::new(2, Form::Mac)),
        "dl_src" => Some(Field::new(8, Form::Mac)),
        "dl_type" => Some(Field::new(14, Form::Word)),
        "vlan_tci" => Some(Field::new(16, Form::Word)),
        "frag" => Some(Field::new(18, Form::Byte)),
        "nw_proto" => Some(Field::new(19, Form::Byte)),
        "nw_tos" => Some(Field::new(20, Form::Byte)),
        "nw_ttl" => Some(Field::new(21, Form::Byte)),
        "tcp_flags" => Some(Field::new(22, Form::Word)),
        "nw_src" => Some(Field::new(24, Form::Quad)),
        "nw_dst" => Some(Field::new(28, Form::Quad)),
        "tp_src" => Some(Field::new(32, Form::Word)),
        "tp_dst" => Some(Field::new(34, Form::Word)),
        _ => None,
    }
}

// Why a field's text is not taken.
#[derive(Debug, Clone, Copy, PartialEq, Eq)]
pub enum FieldFault {
    Unknown,
    Value,
    Mask,
}

// The bytes of a mask and of a value.
#[derive(Debug, Clone, Copy, PartialEq, Eq)]
pub struct Rows {
    pub mask: [u8; 36],
    pub value: [u8; 36],
}

// The value and the mask that a text VALUE or VALUE/MASK says; without a mask it has all bits of the field.
#[tactic(auto, unfolding(crate::specs::Rows::said))]
fn value_and_mask(form: Form, text: &str) -> Result<(u64, u64), FieldFault>
    ensures { result ≡ said form text.now }
{
    let (value, mask) = match cut(text, '/') {
        Some((left, right)) => (value(form, left), mask(form, right)),
        None => (value(form, text), Some(form.full())),
    };
    Ok((
        value.ok_or(FieldFault::Value)?,
        mask.ok_or(FieldFault::Mask)?,
    ))
}

// Writes what a text says of the named field.
pub fn set_field(rows: &mut Rows, name: &str, text: &str) -> Result<Field, FieldFault>
    ensures answer { result ≡ set_answer (field_named name.now) text.now }
    ensures rows { rows.new ≡ rows_after (field_named name.now) text.now rows.old }
{
    let field = field_of(name).ok_or(FieldFault::Unknown)?;
    let (value, mask) = value_and_mask(field.form, text)?;
    field.put(&mut rows.mask, mask);
    field.put(&mut rows.value, value);
    Ok(field)
}
