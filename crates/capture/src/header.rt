// The headers of a classic pcap file, of either byte order, with Ethernet frames.
ghost use Rattle.std.specs.Prelude.{◌≡◌};
ghost use Rattle.capture.specs.Captures.{big_first, number_at, is_magic, order_by_magic, order_of, captured_of};

use std::fmt;

// The order of the bytes of a number in the headers.
#[derive(Debug, Clone, Copy, PartialEq, Eq)]
pub enum Order {
    // most significant byte first
    Big,
    // least significant byte first
    Little,
}

// Why a file header is not one of a capture that is read.
#[derive(Debug, Clone, Copy, PartialEq, Eq)]
pub enum HeaderFault {
    // a file of the newer format pcapng
    Pcapng,
    // the first four bytes, most significant first, are no capture's
    Magic(u32),
    // the major version is not 2
    Version(u16),
    // the link type is not Ethernet
    LinkType(u32),
}

impl fmt::Display for HeaderFault {
    fn fmt<W: fmt::Write>(&self, f: &mut fmt::Formatter<W>) -> fmt::Result {
        match self {
            HeaderFault::Pcapng => write!(
                f,
                "this is a pcapng file; write it as a pcap file first"
            ),
            HeaderFault::Magic(n) => write!(f, "no packet capture: the file begins with {n:#010x}"),
            HeaderFault::Version(n) => write!(
                f,
                "the capture has format version {n}, only version 2 is read"
            ),
            HeaderFault::LinkType(n) => write!(
                f,
                "the capture has link type {n}, only 1 (Ethernet) is read"
            ),
        }
    }
}

impl Order {
    // The bytes of a number, the most significant first.
    fn big_first<const N: usize>(self, mut bytes: [u8; N]) -> [u8; N]
        ensures { result ≡ big_first self bytes.entry }
    {
        if self == Order::Little {
            bytes.reverse();
        }
        bytes
    }

    // The number that four bytes write.
    fn number(self, bytes: [u8; 4]) -> u32
        ensures { result ≡ number_at self bytes 0 }
    {
        u32::from_be_bytes(self.big_first(bytes))
    }
}

// A capture begins with this number; its times are in microseconds, or in nanoseconds.
fn begins_capture(n: u32) -> bool
    ensures { result ≡ is_magic n }
{
    n == 0xa1b2_c3d4 || n == 0xa1b2_3c4d
}

// The byte order that a file's first four bytes tell.
fn first_order(magic: [u8; 4]) -> Result<Order, HeaderFault>
    ensures { result ≡ order_by_magic magic }
{
    let n = Order::Big.number(magic);
    if begins_capture(n) {
        return Ok(Order::Big);
    }
    if begins_capture(Order::Little.number(magic)) {
        return Ok(Order::Little);
    }
    if n == 0x0a0d_0d0a {
        return Err(HeaderFault::Pcapng);
    }
    Err(HeaderFault::Magic(n))
}

// The byte order of a capture, by its file header.
pub fn byte_order(h: &[u8; 24]) -> Result<Order, HeaderFault>
    ensures { result ≡ order_of h.now }
{
    let order = first_order([h[0], h[1], h[2], h[3]])?;
    let version = u16::from_be_bytes(order.big_first([h[4], h[5]]));
    if version != 2 {
        return Err(HeaderFault::Version(version));
    }
    let link = order.number([h[20], h[21], h[22], h[23]]);
    if link != 1 {
        return Err(HeaderFault::LinkType(link));
    }
    Ok(order)
}

// How many bytes of the frame a record has, by its header.
pub fn captured(order: Order, h: &[u8; 16]) -> u32
    ensures { result ≡ captured_of order h.now }
{
    order.number([h[8], h[9], h[10], h[11]])
}
