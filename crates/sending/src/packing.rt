// What a datagram is packed from.
ghost use Rattle.std.specs.Prelude.{◌≡◌, ◌<◌, length};
ghost use Rattle.sending.specs.Packing.{is_cut, flag_for, header_words, total_for, piece_of};

/// What a datagram is packed from, besides the plain body of its packet.
#[derive(Clone, Copy)]
pub struct Packing {
    pub sender: u8,
    pub channel: u16,
    /// The number of the packet's first message.
    pub first: u64,
    /// The number of its messages.
    pub count: u16,
    /// Whether the packet may have been sent before.
    pub duplicate: bool,
    /// Whether the body is sealed by the coder.
    pub sealed: bool,
    /// Whether the header has the plain body's checksum.
    pub checksum: bool,
    // Two numbers and no Option: who asks for a fragment and gives no piece size is to be refused.
    /// The bytes of a piece where the packet is sent in fragments, else 0.
    pub piece_size: usize,
    /// The number of the fragment, from 1; 0 where there are none.
    pub fragment: u16,
}

impl Packing {
    // Whether the packet is sent in fragments.
    pub(crate) fn is_cut(self) -> bool
        ensures { result ≡ is_cut self }
    {
        self.piece_size != 0
    }

    pub(crate) fn flag_word(self) -> u16
        ensures { result ≡ flag_for self }
    {
        0x3080
            + 0x8000 * u16::from(self.duplicate)
            + 0x100 * u16::from(self.sealed)
            + 0x40 * u16::from(self.is_cut())
            + 0x20 * u16::from(self.checksum)
    }

    pub(crate) fn header_words(self) -> u8
        ensures { result ≡ header_words self }
    {
        5 + u8::from(self.is_cut()) + u8::from(self.checksum)
    }

    // How many fragments a body has.
    #[tactic(auto, using(crate::proofs::Cutting::rounded_up))]
    pub(crate) fn total_for(self, body: &[u8]) -> usize
        requires { 0 < self.piece_size }
        ensures { result ≡ total_for self.piece_size (length body.now) }
    {
        body.len().div_ceil(self.piece_size)
    }

    // The part of a body that the datagram carries.
    pub(crate) fn piece_of(self, body: &[u8]) -> &[u8]
        ensures { result.now ≡ piece_of self body.now }
    {
        if !self.is_cut() {
            return body;
        }
        let earlier = usize::from(self.fragment.saturating_sub(1));
        let before = self.piece_size.saturating_mul(earlier);
        let rest = body.get(before..).unwrap_or(&[]);
        &rest[..self.piece_size.min(rest.len())]
    }
}
