// Writing into a buffer from its front, part by part.
ghost use Rattle.std.specs.Prelude.{◌≡◌, ◌+◌, ◌-◌, ◌≤◌, ◌++◌, [], length, replicate};

use base::{adler32, zero_from};

// A buffer of a datagram's size, and how many bytes at its front are written. Each contract says that it still has the
// same reference; without that nobody knows what is in the caller's buffer afterwards.
#[derive(Drop)]
pub(crate) struct Writer<'a> {
    buffer: &'a mut [u8],
    len: usize,
    // A slice and no array: the check makes no proof of `finish` over a lent array.
    ghost sized: { length buffer.now ≡ 1472 },
    ghost within: { len ≤ 1472 },
}

impl<'a> Writer<'a> {
    ghost use Rattle.sending.specs.Packing.{with_trailer};
    ghost use Rattle.sending.specs.Writing.{written};

    pub(crate) fn new(buffer: &'a mut [u8]) -> Writer<'a>
        requires { length buffer.old ≡ 1472 }
        ensures reference { result.buffer.ghost_name ≡ buffer.entry.ghost_name }
        ensures nothing { written result ≡ [] }
    {
        Writer { buffer, len: 0 }
    }

    // Writes a part behind the others.
    pub(crate) fn append(&mut self, part: &[u8])
        requires { length (written self.old) + length part.now ≤ 1472 }
        ensures reference { self.new.buffer.ghost_name ≡ self.old.buffer.ghost_name }
        ensures front { written self.new ≡ written self.old ++ part.now }
    {
        let end = self.len + part.len();
        let buffer = &mut *self.buffer;
        buffer[self.len..end].copy_from_slice(part);
        self.len = end;
    }

    fn written(&self) -> &[u8]
        ensures { result.now ≡ written self.now }
    {
        &self.buffer[..self.len]
    }

    // Writes the checksum of the others behind them.
    pub(crate) fn append_trailer(&mut self)
        requires { length (written self.old) + 4 ≤ 1472 }
        ensures reference { self.new.buffer.ghost_name ≡ self.old.buffer.ghost_name }
        ensures front { written self.new ≡ with_trailer (written self.old) }
    {
        let sum = adler32(self.written());
        self.append(&sum.to_be_bytes());
    }

    // Zeros what is not written, and answers how many bytes are.
    pub(crate) fn finish(&mut self) -> usize
        ensures reference { self.new.buffer.ghost_name ≡ self.old.buffer.ghost_name }
        ensures end { result ≡ length (written self.old) }
        ensures whole { self.new.buffer.now ≡ written self.old ++ replicate (1472 - result) 0 }
    {
        zero_from(self.buffer, self.len);
        self.len
    }
}
