// Where an answer comes from.
ghost use Rattle.std.specs.Prelude.{◌≡◌, ℕ, ◌+◌, ◌≤◌, vec_len, vec_capacity};
ghost use Rattle.text.specs.Texts.{Appended};
ghost use Rattle.text.specs.Lines.{place_text};

use super::put::{put, put_number};

// Where an answer comes from: the statement's line in the script, and the frame's number in a capture.
#[derive(Clone, Copy)]
pub struct Place {
    pub line: u64,
    pub frame: Option<u64>,
}

pub(crate) fn put_place(out: &mut Vec<u8>, place: Place)
    requires { vec_len out.old + 41 ≤ vec_capacity out.old }
    ensures items { Appended out.old.items out.new.items (place_text place) }
    ensures len { vec_len out.new ≤ vec_len out.old + 41 }
    ensures capacity { vec_capacity out.old ≤ vec_capacity out.new }
{
    put_number(out, place.line);
    match place.frame {
        Some(frame) => {
            put(out, b".");
            put_number(out, frame);
        }
        None => {}
    }
}
