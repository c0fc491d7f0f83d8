// How an entry is made, and what an outlet asks of it.
ghost use Rattle.std.specs.Prelude.{◌≡◌, true};
ghost use Rattle.parts.specs.Entries.{delivered, missing, made_up, written_off, closed, letter_of, message_of, numbers_of, numbers_fit, head_of};
ghost use Rattle.parts.specs.Given.{entry_of};

use super::Entry;

impl<'a> Entry<&'a [u8]> {
    pub fn delivered(number: u64, message: &'a [u8]) -> Entry<&'a [u8]>
        ensures { entry_of result ≡ delivered number message.now }
    {
        Entry::Delivered(number, message)
    }

    pub fn missing(first: u64, last: u64) -> Entry<&'a [u8]>
        ensures { entry_of result ≡ missing first last }
    {
        Entry::Missing(first, last)
    }

    pub fn made_up(number: u64, message: &'a [u8]) -> Entry<&'a [u8]>
        ensures { entry_of result ≡ made_up number message.now }
    {
        Entry::MadeUp(number, message)
    }

    pub fn written_off(first: u64, last: u64) -> Entry<&'a [u8]>
        ensures { entry_of result ≡ written_off first last }
    {
        Entry::WrittenOff(first, last)
    }

    pub fn closed(number: u64) -> Entry<&'a [u8]>
        ensures { entry_of result ≡ closed number }
    {
        Entry::Closed(number)
    }

    /// The letter under which it is told.
    pub fn letter(self) -> u8
        ensures { result ≡ letter_of (entry_of self.entry) }
    {
        match self {
            Entry::Delivered(_, _) => b'M',
            Entry::Missing(_, _) => b'G',
            Entry::MadeUp(_, _) => b'U',
            Entry::WrittenOff(_, _) => b'L',
            Entry::Closed(_) => b'Z',
        }
    }

    /// Its message; empty for an entry that has none.
    pub fn message(self) -> &'a [u8]
        ensures { result.now ≡ message_of (entry_of self.entry) }
    {
        match self {
            Entry::Delivered(_, message) | Entry::MadeUp(_, message) => message,
            Entry::Missing(_, _) | Entry::WrittenOff(_, _) | Entry::Closed(_) => &[],
        }
    }

    // The two numbers of its head. There is no `From` of a `usize` for a `u64`.
    fn numbers(self) -> (u64, u64)
        ensures { result ≡ numbers_of (entry_of self.entry) }
    {
        match self {
            Entry::Delivered(n, message) | Entry::MadeUp(n, message) => (n, message.len() as u64),
            Entry::Missing(from, to) | Entry::WrittenOff(from, to) => (from, to),
            Entry::Closed(n) => (n, 0),
        }
    }

    /// Its head: the letter and two numbers of eight bytes.
    pub fn head(self) -> [u8; 17]
        ensures value { result ≡ head_of (entry_of self.entry) }
        ensures fits { numbers_fit (entry_of self.entry) ≡ true }
    {
        let (first, second) = self.numbers();
        let mut head = [0; 17];
        head[0] = self.letter();
        head[1..9].copy_from_slice(&first.to_be_bytes());
        head[9..17].copy_from_slice(&second.to_be_bytes());
        head
    }
}
