// The Flag word of a header, by its bits.
ghost use Rattle.std.specs.Prelude.{◌≡◌, ◌<◌, ◌==◌, nat_lt, not, is_none};
ghost use Rattle.base.specs.Fields.{bits};
ghost use Rattle.wire.specs.Flags.{message_type, type_numbered, is_by_number, compression, encryption, encryption_numbered, has_lengths, is_fragmented, has_checksum, reserved, is_sealed};
ghost use Rattle.wire.specs.Reading.{words_for};

/// The Flag word of a header.
#[derive(Clone, Copy)]
pub struct Flag(pub u16);

// What the messages of a datagram are for.
#[derive(Clone, Copy, PartialEq, Eq)]
pub(crate) enum MessageType {
    Management,
    Application,
}

// How a body is encrypted.
#[derive(Clone, Copy, PartialEq, Eq)]
pub(crate) enum Encryption {
    Plain,
    Token,
}

impl Flag {
    // The number in so many bits, from the bit `low` on.
    fn bits(self, low: u32, width: u32) -> u16
        requires low { low < 16 }
        requires width { width < 16 }
        ensures { result ≡ bits self.0 low width }
    {
        (self.0 >> low) % (1 << width)
    }

    // None where the type is reserved.
    pub(crate) fn message_type(self) -> Option<MessageType>
        ensures value { result ≡ type_numbered (message_type self.0) }
        ensures reserved { is_none result ≡ nat_lt 1 (message_type self.0) }
    {
        match self.bits(13, 2) {
            0 => Some(MessageType::Management),
            1 => Some(MessageType::Application),
            _ => None,
        }
    }

    pub(crate) fn is_by_number(self) -> bool
        ensures { result ≡ is_by_number self.0 }
    {
        self.bits(12, 1) == 1
    }

    pub(crate) fn is_compressed(self) -> bool
        ensures { result ≡ not (compression self.0 == 0) }
    {
        self.bits(10, 2) != 0
    }

    // None where the encryption is reserved.
    pub(crate) fn encryption(self) -> Option<Encryption>
        ensures value { result ≡ encryption_numbered (encryption self.0) }
        ensures reserved { is_none result ≡ nat_lt 1 (encryption self.0) }
    {
        match self.bits(8, 2) {
            0 => Some(Encryption::Plain),
            1 => Some(Encryption::Token),
            _ => None,
        }
    }

    pub(crate) fn has_lengths(self) -> bool
        ensures { result ≡ has_lengths self.0 }
    {
        self.bits(7, 1) == 1
    }

    pub(crate) fn is_fragmented(self) -> bool
        ensures { result ≡ is_fragmented self.0 }
    {
        self.bits(6, 1) == 1
    }

    pub(crate) fn has_checksum(self) -> bool
        ensures { result ≡ has_checksum self.0 }
    {
        self.bits(5, 1) == 1
    }

    pub(crate) fn has_reserved_bits(self) -> bool
        ensures { result ≡ not (reserved self.0 == 0) }
    {
        self.bits(0, 5) != 0
    }

    // The words of a header: five, one more for the fragment's numbers and one more for the body's checksum.
    pub(crate) fn header_words(self) -> u8
        ensures { result ≡ words_for self.0 }
    {
        5 + u8::from(self.is_fragmented()) + u8::from(self.has_checksum())
    }

    /// Whether the body is sealed under the channel's token.
    pub fn is_sealed(self) -> bool
        ensures { result ≡ is_sealed self.0 }
    {
        self.encryption() == Some(Encryption::Token)
    }
}
