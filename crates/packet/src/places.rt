// A number at a place of some bytes, and bytes written at a place.
ghost use Rattle.std.specs.Prelude.{◌≡◌, ◌+◌, ◌<◌, ◌≤◌, length};
ghost use Rattle.packet.specs.Frames.{word};
ghost use Rattle.packet.specs.Layout.{put_at};

// The 16-bit number at `i`.
pub fn word_at(n: &[u8], i: usize) -> u16
    requires { i + 1 < length n.now }
    ensures { result ≡ word n.now i }
{
    u16::from_be_bytes([n[i], n[i + 1]])
}

// Writes some bytes at a place; the rest stays.
pub fn put(out: &mut [u8], at: usize, bytes: &[u8])
    requires { at + length bytes.now ≤ length out.old }
    ensures { out.new ≡ put_at at bytes.now out.old }
{
    let end = at + bytes.len();
    out[at..end].copy_from_slice(bytes);
}
