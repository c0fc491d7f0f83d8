// What every header has.
ghost use Rattle.std.specs.Prelude.{◌≡◌, ◌≤◌, IfSome};
ghost use Rattle.base.specs.Limits.{max_number};
ghost use Rattle.wire.specs.Reading.{is_control, numbered};

use crate::flag::Flag;
use base::limits::MAX_NUMBER;

// The count that a stream end has.
const STREAM_END: u16 = 0xFFFF;

// The header of a datagram behind Protocol and Version, without what its flag adds.
#[derive(Clone, Copy)]
pub struct Head {
    pub header_size: u8,
    pub sender: u8,
    pub market: u16,
    pub channel: u16,
    pub seq: i64,
    pub count: u16,
    pub flag: Flag,
}

impl Head {
    // Whether the datagram is a heartbeat or a stream end, and not data.
    pub(crate) fn is_control(self) -> bool
        ensures { result ≡ is_control self }
    {
        self.channel == 0 || self.count == 0 || self.count == STREAM_END
    }

    // The sequence number, if it is from 0 to the largest.
    pub(crate) fn number(self) -> Option<u64>
        ensures value { result ≡ numbered self.seq }
        ensures bound { IfSome result (λ n. n ≤ max_number) }
    {
        u64::try_from(self.seq).ok().filter(|n| *n <= MAX_NUMBER)
    }
}
