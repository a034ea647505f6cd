// A rule as a script writes it: words NAME=VALUE.
ghost use Rattle.std.specs.Prelude.{◌≡◌, Some};
ghost use Rattle.rule.specs.Drafts.{fault_of, stored, Turns, blank_draft, table_word, id_word, field_word, add_word, name_word, name_of, key_of, rule_of};
ghost use Rattle.rule.specs.DraftTexts.{word_text, draft_text};
ghost use Rattle.rule.specs.Parts.{cut_at};

use super::parts::cut;
use super::ports::ports;
use super::rows::{FieldFault, Rows, set_field};
use super::value::row;
use datapath::{RuleName, RuleRecord};
use numeral::number::number;
use std::fmt;

// What is wrong with a word.
#[derive(Debug, Clone, Copy, PartialEq, Eq)]
pub enum WordFault {
    // it is not NAME=VALUE
    Shape,
    // no such name in this statement
    Unknown,
    // the name stood before
    Twice,
    Table,
    Id,
    Priority,
    Next,
    Ports,
    // the bytes of a mask or a value
    Bytes,
    // the value of a field, and its mask
    Value,
    Mask,
}

impl fmt::Display for WordFault {
    ghost output = { λ fault. Some (word_text fault) };

    fn fmt<W: fmt::Write>(&self, f: &mut fmt::Formatter<W>) -> fmt::Result {
        match self {
            WordFault::Shape => write!(f, "no NAME=VALUE"),
            WordFault::Unknown => write!(f, "no such name in this statement"),
            WordFault::Twice => write!(f, "the name stands twice"),
            WordFault::Table => write!(f, "the table is no number of 32 bits"),
            WordFault::Id => write!(f, "the id is no number of 32 bits"),
            WordFault::Priority => write!(f, "the priority is no number of 16 bits"),
            WordFault::Next => write!(f, "the next table is no number of 16 bits"),
            WordFault::Ports => write!(f, "no list of ports from 0 to 63, and not none"),
            WordFault::Bytes => write!(f, "36 bytes take 72 hexadecimal digits"),
            WordFault::Value => write!(f, "no value of this field"),
            WordFault::Mask => write!(f, "no mask of this field"),
        }
    }
}

impl From<FieldFault> for WordFault {
    ghost from_gives = { λ e r. r ≡ fault_of e };

    fn from(e: FieldFault) -> WordFault {
        match e {
            FieldFault::Unknown => WordFault::Unknown,
            FieldFault::Value => WordFault::Value,
            FieldFault::Mask => WordFault::Mask,
        }
    }
}

// Why the words make no rule: what is missing, or that fields stand beside the bytes of mask and value.
#[derive(Debug, Clone, Copy, PartialEq, Eq)]
pub enum DraftFault {
    Table,
    Id,
    Mask,
    Value,
    Mixed,
}

impl fmt::Display for DraftFault {
    ghost output = { λ fault. Some (draft_text fault) };

    fn fmt<W: fmt::Write>(&self, f: &mut fmt::Formatter<W>) -> fmt::Result {
        match self {
            DraftFault::Table => write!(f, "table= is missing"),
            DraftFault::Id => write!(f, "id= is missing"),
            DraftFault::Mask => write!(f, "mask= is missing"),
            DraftFault::Value => write!(f, "value= is missing"),
            DraftFault::Mixed => write!(f, "fields and mask= value= do not go together"),
        }
    }
}

// A rule that is being read.
#[derive(Debug, Clone, Copy)]
pub struct Draft {
    table: Option<u32>,
    id: Option<u32>,
    priority: Option<u16>,
    next: Option<u16>,
    ports: Option<u64>,
    mask: Option<[u8; 36]>,
    value: Option<[u8; 36]>,
    // what the fields that stood write
    rows: Rows,
    // the places of these fields, a set of numbers below 36 as bits
    fields: u64,
}

// A draft without a word.
pub fn blank() -> Draft
    ensures { result ≡ blank_draft }
{
    Draft {
        table: None,
        id: None,
        priority: None,
        next: None,
        ports: None,
        mask: None,
        value: None,
        rows: Rows {
            mask: [0; 36],
            value: [0; 36],
        },
        fields: 0,
    }
}

// Stores what a word says, where its name did not stand before.
fn store<T: Drop>(slot: &mut Option<T>, said: Option<T>, fault: WordFault) -> Result<(), WordFault>
    ensures { Turns slot.old slot.new result (stored slot.old fault said) }
{
    if slot.is_some() {
        return Err(WordFault::Twice);
    }
    *slot = Some(said.ok_or(fault)?);
    Ok(())
}

impl Draft {
    fn table(&mut self, text: &str) -> Result<(), WordFault>
        ensures { Turns self.old self.new result (table_word self.old text.now) }
    {
        store(&mut self.table, number(text), WordFault::Table)
    }

    fn id(&mut self, text: &str) -> Result<(), WordFault>
        ensures { Turns self.old self.new result (id_word self.old text.now) }
    {
        store(&mut self.id, number(text), WordFault::Id)
    }

    fn field(&mut self, name: &str, text: &str) -> Result<(), WordFault>
        ensures { Turns self.old self.new result (field_word self.old name.now text.now) }
    {
        let mut rows = self.rows;
        let field = set_field(&mut rows, name, text)?;
        if self.fields & field.bit() != 0 {
            return Err(WordFault::Twice);
        }
        self.rows = rows;
        self.fields |= field.bit();
        Ok(())
    }

    // Takes a word of `add`.
    #[tactic(auto, unfolding(crate::specs::Drafts::word_by))]
    pub fn take(&mut self, word: &str) -> Result<(), WordFault>
        ensures { Turns self.old self.new result (add_word self.old (cut_at 61 word.now)) }
    {
        let (name, text) = cut(word, '=').ok_or(WordFault::Shape)?;
        match name {
            "table" => self.table(text),
            "id" => self.id(text),
            "priority" => store(&mut self.priority, number(text), WordFault::Priority),
            "next" => store(&mut self.next, number(text), WordFault::Next),
            "ports" => store(&mut self.ports, ports(text), WordFault::Ports),
            "mask" => store(&mut self.mask, row(text.as_bytes()), WordFault::Bytes),
            "value" => store(&mut self.value, row(text.as_bytes()), WordFault::Bytes),
            _ => self.field(name, text),
        }
    }

    // Takes a word of `remove` or `count`, which only name a rule.
    pub fn take_name(&mut self, word: &str) -> Result<(), WordFault>
        ensures { Turns self.old self.new result (name_word self.old (cut_at 61 word.now)) }
    {
        let (name, text) = cut(word, '=').ok_or(WordFault::Shape)?;
        match name {
            "table" => self.table(text),
            "id" => self.id(text),
            _ => Err(WordFault::Unknown),
        }
    }

    // The rule's name.
    pub fn name(&self) -> Result<RuleName, DraftFault>
        ensures { result ≡ name_of self.now }
    {
        let table = self.table.ok_or(DraftFault::Table)?;
        let id = self.id.ok_or(DraftFault::Id)?;
        Ok(RuleName { table, id })
    }

    // The bytes of its mask and value, from the words for these or from the fields.
    fn key(&self) -> Result<Rows, DraftFault>
        ensures { result ≡ key_of self.now }
    {
        match (self.mask, self.value) {
            (None, None) => Ok(self.rows),
            (Some(_), None) => Err(DraftFault::Value),
            (None, Some(_)) => Err(DraftFault::Mask),
            (Some(_), Some(_)) if self.fields != 0 => Err(DraftFault::Mixed),
            (Some(mask), Some(value)) => Ok(Rows { mask, value }),
        }
    }

    // The rule that the words say; what they leave out is 0.
    pub fn finish(&self) -> Result<RuleRecord, DraftFault>
        ensures { result ≡ rule_of self.now }
    {
        let RuleName { table, id } = self.name()?;
        let Rows { mask, value } = self.key()?;
        Ok(RuleRecord {
            table,
            id,
            priority: self.priority.unwrap_or(0),
            mask,
            value,
            ports: self.ports.unwrap_or(0),
            next: self.next.unwrap_or(0),
        })
    }
}
