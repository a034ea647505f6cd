// The line that answers `key`.
// The functions here that are not public ask for room in the buffer, and then cannot fail.
ghost use Rattle.std.specs.Prelude.{◌≡◌, ℕ, ◌+◌, ◌≤◌, ◌++◌, is_ok, if◌then◌else◌, vec_len, vec_capacity};
ghost use Rattle.std.specs.Option.{option_map};
ghost use Rattle.packet.specs.Readings.{span_of};
ghost use Rattle.text.specs.Texts.{Appended, mac_text, quad_text, link_text, network_text, address_text, key_text};
ghost use Rattle.text.specs.Lines.{part_text, reading_text, answer_text, line_text};

use super::page::Page;
use super::place::{Place, put_place};
use super::put::{digit, put, put_byte, put_flags, put_hex, put_number, put_refusal, put_word};
use packet::{Key, Part, read};
use refusal::Refusal;
use std::alloc::AllocError;

// The six bytes of an Ethernet address, of which the first stands at `i`.
fn put_mac(out: &mut Vec<u8>, k: &Key, i: usize)
    requires { (vec_len out.old + 17 ≤ vec_capacity out.old) × (i ≤ 30) }
    ensures items { Appended out.old.items out.new.items (mac_text k.now i) }
    ensures len { vec_len out.new ≤ vec_len out.old + 17 }
    ensures capacity { vec_capacity out.old ≤ vec_capacity out.new }
{
    let (a, b, c) = (k[i], k[i + 1], k[i + 2]);
    let (d, e, f) = (k[i + 3], k[i + 4], k[i + 5]);
    put(
        out,
        &[
            digit(a / 16),
            digit(a % 16),
            b':',
            digit(b / 16),
            digit(b % 16),
            b':',
            digit(c / 16),
            digit(c % 16),
            b':',
            digit(d / 16),
            digit(d % 16),
            b':',
            digit(e / 16),
            digit(e % 16),
            b':',
            digit(f / 16),
            digit(f % 16),
        ],
    );
}

// The four bytes of an IPv4 address, of which the first stands at `i`.
fn put_quad(out: &mut Vec<u8>, k: &Key, i: usize)
    requires { (vec_len out.old + 15 ≤ vec_capacity out.old) × (i ≤ 32) }
    ensures items { Appended out.old.items out.new.items (quad_text k.now i) }
    ensures len { vec_len out.new ≤ vec_len out.old + 15 }
    ensures capacity { vec_capacity out.old ≤ vec_capacity out.new }
{
    put_byte(out, k[i]);
    put(out, b".");
    put_byte(out, k[i + 1]);
    put(out, b".");
    put_byte(out, k[i + 2]);
    put(out, b".");
    put_byte(out, k[i + 3]);
}

// The in-port and the Ethernet fields.
fn put_link(out: &mut Vec<u8>, k: &Key)
    requires { vec_len out.old + 94 ≤ vec_capacity out.old }
    ensures items { Appended out.old.items out.new.items (link_text k.now) }
    ensures len { vec_len out.new ≤ vec_len out.old + 94 }
    ensures capacity { vec_capacity out.old ≤ vec_capacity out.new }
{
    put(out, b"in_port=");
    put_word(out, k[0], k[1]);
    put(out, b",dl_dst=");
    put_mac(out, k, 2);
    put(out, b",dl_src=");
    put_mac(out, k, 8);
    put(out, b",dl_type=0x");
    put_hex(out, k[14], k[15]);
    put(out, b",vlan_tci=0x");
    put_hex(out, k[16], k[17]);
}

// The fields of the IPv4 header but for the addresses, and the TCP flags.
fn put_network(out: &mut Vec<u8>, k: &Key)
    requires { vec_len out.old + 60 ≤ vec_capacity out.old }
    ensures items { Appended out.old.items out.new.items (network_text k.now) }
    ensures len { vec_len out.new ≤ vec_len out.old + 60 }
    ensures capacity { vec_capacity out.old ≤ vec_capacity out.new }
{
    put(out, b",frag=");
    put_byte(out, k[18]);
    put(out, b",nw_proto=");
    put_byte(out, k[19]);
    put(out, b",nw_tos=");
    put_byte(out, k[20]);
    put(out, b",nw_ttl=");
    put_byte(out, k[21]);
    put(out, b",tcp_flags=0x");
    put_flags(out, k[22], k[23]);
}

// The IPv4 addresses and the transport ports.
fn put_addresses(out: &mut Vec<u8>, k: &Key)
    requires { vec_len out.old + 72 ≤ vec_capacity out.old }
    ensures items { Appended out.old.items out.new.items (address_text k.now) }
    ensures len { vec_len out.new ≤ vec_len out.old + 72 }
    ensures capacity { vec_capacity out.old ≤ vec_capacity out.new }
{
    put(out, b",nw_src=");
    put_quad(out, k, 24);
    put(out, b",nw_dst=");
    put_quad(out, k, 28);
    put(out, b",tp_src=");
    put_word(out, k[32], k[33]);
    put(out, b",tp_dst=");
    put_word(out, k[34], k[35]);
}

// A key, field by field.
fn put_key(out: &mut Vec<u8>, k: &Key)
    requires { vec_len out.old + 226 ≤ vec_capacity out.old }
    ensures items { Appended out.old.items out.new.items (key_text k.now) }
    ensures len { vec_len out.new ≤ vec_len out.old + 226 }
    ensures capacity { vec_capacity out.old ≤ vec_capacity out.new }
{
    put_link(out, k);
    put_network(out, k);
    put_addresses(out, k);
}

// A part of the frame as offset+length, or none. The two numbers take twenty digits each at most.
fn put_part(out: &mut Vec<u8>, part: Option<Part<'_>>)
    requires { vec_len out.old + 41 ≤ vec_capacity out.old }
    ensures items { Appended out.old.items out.new.items (part_text (option_map span_of part.entry)) }
    ensures len { vec_len out.new ≤ vec_len out.old + 41 }
    ensures capacity { vec_capacity out.old ≤ vec_capacity out.new }
{
    match part {
        Some(part) => {
            put_number(out, part.offset as u64);
            put(out, b"+");
            put_number(out, part.bytes.len() as u64);
        }
        None => put(out, b"none"),
    }
}

// A key and its parts.
fn put_reading(out: &mut Vec<u8>, k: &Key, ipv4: Option<Part<'_>>, transport: Option<Part<'_>>)
    requires { vec_len out.old + 325 ≤ vec_capacity out.old }
    ensures items { Appended out.old.items out.new.items (reading_text k.now (option_map span_of ipv4.entry) (option_map span_of transport.entry)) }
    ensures len { vec_len out.new ≤ vec_len out.old + 325 }
    ensures capacity { vec_capacity out.old ≤ vec_capacity out.new }
{
    put_key(out, k);
    put(out, b" ipv4=");
    put_part(out, ipv4);
    put(out, b" transport=");
    put_part(out, transport);
}

// What a frame that came in at a port reads as.
fn put_answer(out: &mut Vec<u8>, port: u16, frame: &[u8])
    requires { vec_len out.old + 325 ≤ vec_capacity out.old }
    ensures items { Appended out.old.items out.new.items (answer_text port frame.now) }
    ensures len { vec_len out.new ≤ vec_len out.old + 325 }
    ensures capacity { vec_capacity out.old ≤ vec_capacity out.new }
{
    match read(port, frame) {
        Ok(reading) => put_reading(out, &reading.key, reading.ipv4, reading.transport),
        Err(fault) => put_refusal(out, Refusal::from(fault)),
    }
}

// The line that answers `key`, or nothing where there is no memory for it.
pub fn key_line(page: &mut Page, place: Place, port: u16, frame: &[u8]) -> Result<(), AllocError>
    ensures { page.new ≡ (if is_ok result then page.old ++ line_text place (answer_text port frame.now) else page.old) }
{
    let out = &mut page.text;
    out.reserve(512)?;
    put_place(out, place);
    put(out, b" key: ");
    put_answer(out, port, frame);
    put(out, b"\n");
    Ok(())
}
