// What an IPv4 packet adds to the key, from the network bytes.
ghost use Rattle.std.specs.Prelude.{◌≡◌, ◌-◌, ◌≤◌, true, false, length, MatchOption};
ghost use Rattle.std.specs.Option.{option_map};
ghost use Rattle.packet.specs.Frames.{part, header_len, total_len, sound_ipv4, fragment, has_transport, protocol, transport, bytes16, flags_field, port_fields, ipv4_fields};
ghost use Rattle.packet.specs.Kinds.{fragment_number, transport_bytes};

use super::places::{put, word_at};
use super::transport::{TransportFields, transport_fields};

// Whether a packet is whole, or which fragment of one it is.
#[derive(Clone, Copy)]
pub enum Fragment {
    Whole = 0,
    First = 1,
    Later = 3,
}

// The fragment's number in the key.
impl From<Fragment> for u8 {
    ghost from_gives = { λ f r. r ≡ fragment_number f };

    fn from(fragment: Fragment) -> u8 {
        fragment as u8
    }
}

// Network bytes that begin with a sound IPv4 header, and the lengths that it gives: the header's own, and the packet's.
#[derive(Clone, Copy)]
pub struct Packet<'a> {
    pub bytes: &'a [u8],
    pub header: usize,
    pub total: usize,
    ghost sound: { sound_ipv4 bytes.now ≡ true },
    ghost header_is: { header ≡ header_len bytes.now },
    ghost total_is: { total ≡ total_len bytes.now },
    ghost whole: { 20 ≤ header },
    ghost behind: { header ≤ total },
    ghost there: { total ≤ length bytes.now },
}

impl<'a> Packet<'a> {
    // None where the header is cut, of another version, or says lengths that do not fit.
    pub fn of(n: &'a [u8]) -> Option<Packet<'a>>
        ensures { MatchOption result (sound_ipv4 n.now ≡ false) (λ p. p.bytes.now ≡ n.now) }
    {
        if n.len() < 20 || n[0] / 16 != 4 {
            return None;
        }
        let header = usize::from(n[0] % 16) * 4;
        let total = usize::from(word_at(n, 2));
        if header < 20 || total < header || n.len() < total {
            return None;
        }
        let bytes = n;
        Some(Packet {
            bytes,
            header,
            total,
        })
    }

    // The header's bytes.
    pub fn head(&self) -> &'a [u8]
        ensures { result.now ≡ part self.now.bytes.now 0 (header_len self.now.bytes.now) }
    {
        &self.bytes[0..self.header]
    }

    // The bytes behind the header, unless the packet is a later fragment.
    pub fn transport(&self) -> Option<&'a [u8]>
        ensures { option_map (λ t. t.now) result ≡ transport_bytes self.now.bytes.now }
    {
        match self.fragment() {
            Fragment::Later => None,
            _ => Some(&self.bytes[self.header..self.total]),
        }
    }

    fn fragment(&self) -> Fragment
        ensures { fragment_number result ≡ fragment self.now.bytes.now }
    {
        let w = word_at(self.bytes, 6);
        if w % 0x2000 > 0 {
            Fragment::Later
        } else if w / 0x2000 % 2 == 1 {
            Fragment::First
        } else {
            Fragment::Whole
        }
    }

    fn transport_fields(&self) -> TransportFields
        ensures flags { bytes16 result.flags ≡ flags_field (protocol self.now.bytes.now) (transport self.now.bytes.now) }
        ensures ports { result.ports ≡ port_fields (protocol self.now.bytes.now) (transport self.now.bytes.now) }
    {
        transport_fields(self.bytes[9], self.transport().unwrap_or(&[]))
    }

    // What IPv4, TCP and UDP fill of the key: its last 18 bytes.
    pub fn key_bytes(&self) -> [u8; 18]
        ensures { result ≡ ipv4_fields self.now.bytes.now }
    {
        let n = self.bytes;
        let kind = u8::from(self.fragment());
        let transport = self.transport_fields();
        let mut out = [0u8; 18];
        put(&mut out, 0, &[kind, n[9], n[1], n[8]]);
        put(&mut out, 4, &transport.flags.to_be_bytes());
        put(&mut out, 6, &n[12..20]);
        put(&mut out, 14, &transport.ports);
        out
    }
}
