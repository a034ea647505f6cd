// A reader over a frame that is lent.
ghost use Rattle.std.specs.Prelude.{◌≡◌, ◌++◌, true, false, Some, None, MatchOption, MatchResult};
ghost use Rattle.std.specs.Option.{option_map};
ghost use Rattle.std.proofs.Props.{props};
ghost use Rattle.packet.specs.Faults.{refusal_of};
ghost use Rattle.packet.specs.Frames.{Span, refusal, part, tag_of, vlan_field, type_word, type_field, network_at, network, network_fields, link_layout, has_ipv4, key_of, ipv4_of, transport_of};
ghost use Rattle.packet.specs.Readings.{span_of};

use super::fault::FrameFault;
use super::ipv4::Packet;
use super::places::{put, word_at};

// The 36 bytes by which rules tell frames apart.
pub type Key = [u8; 36];

// A part of the frame, with the place where it begins.
#[derive(Clone, Copy)]
pub struct Part<'a> {
    pub offset: usize,
    pub bytes: &'a [u8],
}

// A frame that may be read: the tag's control information, if it has a tag, and the type word.
#[derive(Clone, Copy)]
pub struct Reader<'a> {
    in_port: u16,
    frame: &'a [u8],
    tag: Option<u16>,
    ethertype: u16,
    ghost admitted: { refusal in_port frame.now ≡ None } by { Prim.hlevel props },
    ghost tag_is: { tag ≡ tag_of frame.now } by { Prim.hlevel props },
    ghost type_is: { ethertype ≡ type_word frame.now },
}

impl<'a> Reader<'a> {
    // Takes a frame that came in at a port, or says why it is not read.
    pub fn open(in_port: u16, frame: &'a [u8]) -> Result<Reader<'a>, FrameFault>
        ensures { MatchResult result (λ x. (refusal in_port frame.now ≡ None) × (x.in_port ≡ in_port) × (x.frame.now ≡ frame.now)) (λ e. refusal in_port frame.now ≡ Some (refusal_of e)) }
    {
        let len = frame.len();
        if !matches!(in_port, 1..=63) {
            return Err(FrameFault::InPort(in_port));
        }
        let header = frame.first_chunk::<14>().ok_or(FrameFault::Short(len))?;
        if len > 9216 {
            return Err(FrameFault::Long(len));
        }
        let ethertype = word_at(header, 12);
        if ethertype != 0x8100 {
            return Ok(Reader {
                in_port,
                frame,
                tag: None,
                ethertype,
            });
        }
        let header = frame
            .first_chunk::<18>()
            .ok_or(FrameFault::ShortTagged(len))?;
        Ok(Reader {
            in_port,
            frame,
            tag: Some(word_at(header, 14)),
            ethertype: word_at(header, 16),
        })
    }

    // The frame's key.
    #[tactic(auto, using(crate::proofs::Keys::halves_laid), unfolding(crate::specs::Frames::key_of))]
    pub fn key(&self) -> Key
        ensures { result ≡ key_of self.now.in_port self.now.frame.now }
    {
        let mut key = [0u8; 36];
        put(&mut key, 0, &self.link_bytes());
        put(&mut key, 18, &self.network_bytes());
        key
    }

    // The IPv4 header, where there is a sound one.
    #[tactic(auto, unfolding(crate::specs::Frames::ipv4_of))]
    pub fn ipv4(&self) -> Option<Part<'a>>
        ensures { option_map span_of result ≡ ipv4_of self.now.frame.now }
    {
        let packet = self.packet()?;
        let offset = self.offset();
        let bytes = packet.head();
        Some(Part { offset, bytes })
    }

    // The transport part of an IPv4 packet that is no later fragment: from the header's end to the total length.
    #[tactic(auto, unfolding(crate::specs::Frames::transport_of))]
    pub fn transport(&self) -> Option<Part<'a>>
        ensures { option_map span_of result ≡ transport_of self.now.frame.now }
    {
        let packet = self.packet()?;
        let bytes = packet.transport()?;
        let offset = self.offset() + packet.header;
        Some(Part { offset, bytes })
    }

    // The IPv4 packet, where there is a sound header.
    fn packet(&self) -> Option<Packet<'a>>
        ensures { MatchOption result (has_ipv4 (type_word self.now.frame.now) (network self.now.frame.now) ≡ false) (λ p. (has_ipv4 (type_word self.now.frame.now) (network self.now.frame.now) ≡ true) × (p.bytes.now ≡ network self.now.frame.now)) }
    {
        if self.ethertype != 0x0800 {
            return None;
        }
        Packet::of(&self.frame[self.offset()..])
    }

    // Where the network bytes begin: behind the type word.
    fn offset(&self) -> usize
        ensures { result ≡ network_at self.now.frame.now }
    {
        if self.tag.is_some() { 18 } else { 14 }
    }

    // The key's first 18 bytes: what the port and the Ethernet header fill.
    fn link_bytes(&self) -> [u8; 18]
        ensures { result ≡ link_layout self.now.in_port (part self.now.frame.now 0 6) (part self.now.frame.now 6 6) (type_word self.now.frame.now) (vlan_field self.now.frame.now) }
    {
        let mut out = [0u8; 18];
        put(&mut out, 0, &self.in_port.to_be_bytes());
        put(&mut out, 2, &self.frame[0..6]);
        put(&mut out, 8, &self.frame[6..12]);
        put(&mut out, 14, &key_type(self.ethertype).to_be_bytes());
        put(&mut out, 16, &self.vlan().to_be_bytes());
        out
    }

    // The key's last 18 bytes: what IPv4, TCP and UDP fill, zero where there is no sound IPv4 header.
    fn network_bytes(&self) -> [u8; 18]
        ensures { result ≡ network_fields (type_word self.now.frame.now) (network self.now.frame.now) }
    {
        match self.packet() {
            Some(packet) => packet.key_bytes(),
            None => [0; 18],
        }
    }

    // The key's VLAN: a tag's control information with bit 12 set, 0 without a tag.
    fn vlan(&self) -> u16
        ensures { result ≡ vlan_field self.now.frame.now }
    {
        self.tag.map_or(0, |tci| tci | 0x1000)
    }
}

// What a frame says: its key, and its parts where they are present.
#[derive(Clone, Copy)]
pub struct Reading<'a> {
    pub key: Key,
    pub ipv4: Option<Part<'a>>,
    pub transport: Option<Part<'a>>,
}

// Reads a frame whole, or says why it is not read.
pub fn read<'a>(in_port: u16, frame: &'a [u8]) -> Result<Reading<'a>, FrameFault>
    ensures { MatchResult result (λ x. (refusal in_port frame.now ≡ None) × (x.key ≡ key_of in_port frame.now) × (option_map span_of x.ipv4 ≡ ipv4_of frame.now) × (option_map span_of x.transport ≡ transport_of frame.now)) (λ e. refusal in_port frame.now ≡ Some (refusal_of e)) }
{
    let reader = Reader::open(in_port, frame)?;
    Ok(Reading {
        key: reader.key(),
        ipv4: reader.ipv4(),
        transport: reader.transport(),
    })
}

// Reads the key alone, or says why the frame is not read.
pub fn read_key(in_port: u16, frame: &[u8]) -> Result<Key, FrameFault>
    ensures { MatchResult result (λ k. (refusal in_port frame.now ≡ None) × (k ≡ key_of in_port frame.now)) (λ e. refusal in_port frame.now ≡ Some (refusal_of e)) }
{
    let reader = Reader::open(in_port, frame)?;
    Ok(reader.key())
}

// The key's type: a word below 0x0600 is a length, and no type.
fn key_type(ethertype: u16) -> u16
    ensures { result ≡ type_field ethertype }
{
    if ethertype < 0x0600 {
        0x05ff
    } else {
        ethertype
    }
}
