// A page, and writing to it.
ghost use Rattle.std.specs.Prelude.{◌≡◌, ◌≤◌, length, IfOk, decimal, string_len, string_capacity};

use itoa::Buffer;
use std::alloc::{AllocError, Global};

/// A text in memory that was got before it is written: writing to it cannot fail.
#[derive(Drop)]
pub struct Page {
    text: String,
    room: usize,
    ghost within: { string_len text ≤ room },
    ghost got: { room ≤ string_capacity text },
}

impl Page {
    ghost use Rattle.page.specs.Text.{sheet, blank, wrote};

    /// An empty page with this room, or want of memory. No other function gets memory.
    pub fn with_room(heap: Global, room: usize) -> Result<Page, AllocError>
        ensures { IfOk result (λ p. sheet p ≡ blank room) }
    {
        let text = String::with_capacity(heap, room)?;
        Ok(Page { text, room })
    }

    /// Appends the piece if all of it fits the room; else the page stays as it is.
    #[tactic(auto, unfolding(crate::specs::Text::wrote))]
    pub fn push(&mut self, piece: &str)
        ensures { sheet self.new ≡ wrote (sheet self.old) piece.now }
    {
        if piece.len() <= self.room - self.text.len() {
            self.text.push_str(piece).unwrap();
        }
    }

    /// Appends the number in decimal if all of it fits the room; else the page stays as it is.
    pub fn push_number(&mut self, n: u64)
        ensures text { sheet self.new ≡ wrote (sheet self.old) (decimal n) }
        ensures digits { length (decimal n) ≤ 20 }
    {
        let mut buffer = Buffer::new();
        self.push(buffer.format(n));
    }

    /// The text that was written.
    pub fn as_str(&self) -> &str
        ensures { result.now ≡ (sheet self.now).text }
    {
        self.text.as_str()
    }
}
