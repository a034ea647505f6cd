// The lines that are to be written out.
ghost use Rattle.std.specs.Prelude.{◌≡◌, ℕ, [], List, length, IfOk};

use std::alloc::{AllocError, Global};
use std::marker::Model;

// Each line is put whole behind those that stand, or not at all.
#[derive(Drop)]
pub struct Page {
    pub(crate) text: Vec<u8>,
}

// What a clause sees of it: the bytes of its lines.
impl Model for Page {
    ghost Value = { List ℕ };

    ghost view = { λ p. p.text.items };
}

// Any bytes may stand ahead of the lines.
impl From<Vec<u8>> for Page {
    ghost from_gives = { λ v p. p ≡ v.items };

    fn from(text: Vec<u8>) -> Page {
        Page { text }
    }
}

impl From<Page> for Vec<u8> {
    ghost from_gives = { λ p v. v.items ≡ p };

    fn from(page: Page) -> Vec<u8> {
        page.text
    }
}

impl Page {
    // An empty page with room for so many bytes.
    pub fn new(heap: Global, room: usize) -> Result<Page, AllocError>
        ensures { IfOk result (λ p. p ≡ []) }
    {
        Ok(Page {
            text: Vec::with_capacity(heap, room)?,
        })
    }

    pub fn as_slice(&self) -> &[u8]
        ensures { result.now ≡ self.now }
    {
        self.text.as_slice()
    }

    pub fn len(&self) -> usize
        ensures { result ≡ length self.now }
    {
        self.text.len()
    }

    pub fn clear(&mut self)
        ensures { self.new ≡ [] }
    {
        self.text.clear();
    }
}
