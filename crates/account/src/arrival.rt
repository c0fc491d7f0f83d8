// An arrival: data that was read.
ghost use Rattle.std.specs.Prelude.{◌≡◌, ◌+◌, ◌≤◌, length};
ghost use Rattle.base.specs.Limits.{max_datagram, max_number, trailer_size};
ghost use Rattle.account.specs.Arriving.{last_of};

use wire::Packet;

// A datagram that was read as data: the packet that it tells of, and its bytes.
#[derive(Clone, Copy)]
pub(crate) struct Arrival<'a> {
    pub packet: Packet,
    pub datagram: &'a [u8],
    pub ghost body: { packet.start ≤ packet.«end» },
    pub ghost trailer: { packet.«end» + trailer_size ≡ length datagram.now },
    pub ghost size: { length datagram.now ≤ max_datagram },
    pub ghost some: { 1 ≤ packet.count },
    pub ghost last: { last_of packet ≤ max_number },
}

impl Arrival<'_> {
    // The number of its last message.
    pub fn last(self) -> u64
        ensures value { result ≡ last_of self.entry.packet }
        ensures range { result ≤ max_number }
    {
        self.packet.first + u64::from(self.packet.count) - 1
    }
}
