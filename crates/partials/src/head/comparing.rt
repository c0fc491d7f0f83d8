// Fragments beside those of their packet.
ghost use Rattle.std.specs.Prelude.{◌≡◌};
ghost use Rattle.partials.specs.Joining.{agree};

use super::PartialHead;

// What tells a packet from others.
#[derive(Clone, Copy, PartialEq)]
pub(crate) struct Key {
    pub(crate) sender: u8,
    pub(crate) first: u64,
}

// What the fragments of a packet agree in.
#[derive(Clone, Copy, PartialEq)]
struct Shape {
    count: u16,
    flag: u16,
    total: u16,
    checksum: Option<u32>,
}

impl PartialHead {
    pub(crate) fn key(self) -> Key
        ensures { result ≡ record { sender = self.sender; first = self.first } }
    {
        Key {
            sender: self.sender,
            first: self.first,
        }
    }

    fn shape(self) -> Shape
        ensures { result ≡ record { count = self.count; flag = self.flag; total = self.total; checksum = self.checksum } }
    {
        Shape {
            count: self.count,
            flag: self.flag,
            total: self.total,
            checksum: self.checksum,
        }
    }

    // Whether two fragments of one packet tell the same of it.
    pub(crate) fn agrees(self, other: PartialHead) -> bool
        ensures { result ≡ agree self other }
    {
        self.shape() == other.shape()
    }
}
