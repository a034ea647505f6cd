// The reader for callers in C and Rust.
#![tactic(auto)]

ghost use Rattle.std.specs.Prelude.{◌≡◌};
ghost use Rattle.exports.specs.Answers.{answer_of, held_after};

use packet::Reader;
use refusal::Refusal;

// Writes the key of a frame that came in at a port, and answers 0; or writes nothing, and answers the refusal's number,
// or 255 where the buffer for the key is not 36 bytes long.
#[unsafe(no_mangle)]
pub extern "C" fn dolfrims_key(in_port: u16, frame: &[u8], key: &mut [u8]) -> u8
    ensures answer { result ≡ answer_of in_port frame.now key.old }
    ensures held { key.new ≡ held_after in_port frame.now key.old }
{
    if key.len() != 36 {
        return 255;
    }
    match Reader::open(in_port, frame) {
        Ok(reader) => {
            key.copy_from_slice(&reader.key());
            0
        }
        Err(fault) => Refusal::from(fault).number,
    }
}
