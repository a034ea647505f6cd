// A key field by field, against the table's words.
use super::text;
use packet::{FrameFault, Key, Part, Reader};
use refusal::Refusal;

// A line of the table, and where to say what differs there.
#[derive(Clone, Copy)]
pub struct Line<'a> {
    pub rt: &'a HostRuntime,
    pub number: u64,
}

// Where a part begins and how long it is, zero for a part that is not there.
fn place(part: Option<Part<'_>>) -> (u64, u64) {
    part.map_or((0, 0), |part| (part.offset as u64, part.bytes.len() as u64))
}

// What was read, under the names of the table's columns and in their order: the key's fields, then the places and the
// lengths of the parts.
fn columns(key: &Key, reader: &Reader<'_>) -> [(&'static str, u64); 17] {
    let (ip_at, ip_len) = place(reader.ipv4());
    let (data_at, data_len) = place(reader.transport());
    [
        ("dst", text::number(&key[2..8])),
        ("src", text::number(&key[8..14])),
        ("type", text::number(&key[14..16])),
        ("vlan", text::number(&key[16..18])),
        ("frag", u64::from(key[18])),
        ("proto", u64::from(key[19])),
        ("tos", u64::from(key[20])),
        ("ttl", u64::from(key[21])),
        ("flags", text::number(&key[22..24])),
        ("ip.src", text::number(&key[24..28])),
        ("ip.dst", text::number(&key[28..32])),
        ("sport", text::number(&key[32..34])),
        ("dport", text::number(&key[34..36])),
        ("ip.at", ip_at),
        ("ip.hdr", ip_len),
        ("data.at", data_at),
        ("data.len", data_len),
    ]
}

impl Line<'_> {
    // Whether a field is what a word says; a line says what differs.
    fn same_field(&self, name: &str, read: u64, said: &str) -> anyhow::Result<bool> {
        if text::value(said) == Some(read) {
            return Ok(true);
        }
        let line = self.number;
        println!(self.rt; "line {line}: {name} is read as {read:#x}, the table has {said}")?;
        Ok(false)
    }

    // Whether the key and the parts are what the table says; `port` is its word for the in-port.
    pub fn same_fields(
        &self,
        port: &str,
        reader: &Reader<'_>,
        said: &[&str],
    ) -> anyhow::Result<bool> {
        if said.len() < 17 {
            let line = self.number;
            println!(self.rt; "line {line}: the frame is read, and fields are missing")?;
            return Ok(false);
        }
        let key = reader.key();
        let mut same = self.same_field("in-port", text::number(&key[0..2]), port)?;
        for ((name, read), word) in columns(&key, reader).iter().zip(said) {
            same = self.same_field(name, *read, word)? && same;
        }
        Ok(same)
    }

    // Whether the table says that the frame is refused, by this number and with this detail.
    pub fn same_refusal(&self, fault: FrameFault, said: &[&str]) -> anyhow::Result<bool> {
        let Refusal { number, detail } = Refusal::from(fault);
        if let [verb, by, with, ..] = said {
            if *verb == "refused"
                && text::value(by) == Some(u64::from(number))
                && text::value(with) == Some(detail)
            {
                return Ok(true);
            }
        }
        let line = self.number;
        println!(self.rt;
            "line {line}: refused by {number}, detail {detail}, and the table says otherwise"
        )?;
        Ok(false)
    }
}
