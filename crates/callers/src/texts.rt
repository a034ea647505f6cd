// What a caller learns of the texts of a place, a word and a reply.
ghost use Rattle.std.specs.Prelude.{◌≡◌, IfOk, string_bytes};
ghost use Rattle.text.specs.Answers.{reply_text, verb_text};
ghost use Rattle.text.specs.Lines.{place_text};

use std::alloc::{AllocError, Global};
use text::answer::{Reply, Verb};
use text::place::Place;

// Where an answer comes from.
pub fn place_shown(heap: Global, place: Place) -> Result<String, AllocError>
    ensures { IfOk result (λ s. string_bytes s ≡ place_text place) }
{
    place.to_string(heap)
}

// The word of a call.
pub fn verb_shown(heap: Global, verb: Verb) -> Result<String, AllocError>
    ensures { IfOk result (λ s. string_bytes s ≡ verb_text verb) }
{
    format!(in heap; "{verb}")
}

// What one switch answers.
pub fn reply_shown(heap: Global, reply: Reply) -> Result<String, AllocError>
    ensures { IfOk result (λ s. string_bytes s ≡ reply_text reply) }
{
    format!(in heap; "{reply}")
}
