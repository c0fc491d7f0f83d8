// Why something is refused: the causes, and for each its number, its layer and the value that comes with it.
ghost use Rattle.std.specs.Prelude.{◌≡◌, Some};
ghost use Rattle.base.specs.Refusals.{rule_of, refusal_text};

use std::error::Error;
use std::fmt;

/// The layer that refuses: the layers of an arrival in their order, or a call by itself.
#[derive(Clone, Copy)]
pub enum Layer {
    Reading,
    Joining,
    Coding,
    Splitting,
    Placing,
    Call,
}

/// What the value beside a cause is.
#[derive(Clone, Copy)]
pub enum Returned {
    /// Always 0.
    Zero,
    /// A place in the datagram that is the same in all of them.
    Place(u64),
    /// The place of the datagram's trailer.
    TrailerPlace,
    /// The place where the datagram's coded body starts.
    BodyStart,
    /// The place of the datagram's body checksum.
    ChecksumPlace,
    /// The index of a message in its packet, from 1.
    MessageIndex,
    /// The datagram's sequence number.
    SeqNum,
    /// The first number of a packet.
    First,
    /// The account's next expected number.
    Next,
    /// The last number of a gap row, as the call named it.
    Last,
    /// The length of the bytes that were given.
    Length,
    /// The claim itself comes back; the value is 0.
    Claim,
    /// The capture's record, from 1; 0 for its header.
    Record,
}

/// Every cause of a refusal.
#[derive(Clone, Copy, Debug)]
pub enum Cause {
    /// A working buffer or the packer's buffer has a wrong size.
    BufferSize,
    /// The datagram is too short or too long.
    DatagramSize,
    /// The Protocol byte is not the protocol's.
    Protocol,
    /// The Version byte is not the protocol's.
    Version,
    /// The trailer is not the checksum of what stands before it.
    Trailer,
    /// The MarketId is not the protocol's.
    Market,
    /// The Channel is neither 0 nor the account's.
    Channel,
    /// The Flag has a reserved bit, or a type, compression or encryption that is not served.
    FlagBits,
    /// The HeaderSize is not what the Flag asks for, or header and trailer are longer than the datagram.
    HeaderSize,
    /// A heartbeat or a stream end is misshapen.
    ControlShape,
    /// A packet has too many messages.
    MessageCount,
    /// A packet's Flag lacks the application type, resend by number or the lengths.
    DataFlag,
    /// A packet's numbers leave their range.
    NumberRange,
    /// The fragments' total, the fragment's number or its empty piece is out of range.
    Fragment,
    /// A fragment disagrees with the fragments of its packet that came before.
    FragmentMismatch,
    /// The fragments of a packet are too long together.
    FragmentsTooLong,
    /// A body is too long for a shelf.
    HeldBodySize,
    /// The shelf has that first number already.
    AlreadyHeld,
    /// The coder is not ready for the packet's first number.
    CoderNotReady,
    /// The body checksum differs from the plain body's.
    BodyChecksum,
    /// The lengths do not tell off the plain body exactly.
    MessageLengths,
    /// The shelf has no place free.
    ShelfFull,
    /// A heartbeat or a packet goes past the stream's end, or an end contradicts what was heard.
    PastEnd,
    /// The outlet is too small for all entries of the call.
    OutletFull,
    /// The number to judge is not above the next expected, or above what may be passed over.
    JudgeNumber,
    /// No gap row is free.
    GapRowsFull,
    /// No gap row has this last number.
    NoGapRow,
    /// The gap row is claimed already.
    RowClaimed,
    /// The gap row is not claimed.
    RowNotClaimed,
    /// The message to make up is empty or too long.
    MakeUpSize,
    /// The claim is another channel's.
    ForeignClaim,
    /// The account is not ready to be closed.
    NotClosable,
    /// A channel cannot be opened on these numbers or over these parts.
    Opening,
    /// A part's memory or a token has a wrong size.
    PartSize,
    /// The capture is malformed.
    Capture,
    /// A packer's argument, body or datagram is out of range.
    PackArgument,
    /// The packer's coder is not ready.
    SealNotReady,
}

/// What holds of a cause.
#[derive(Clone, Copy)]
pub struct Rule {
    pub number: u16,
    pub layer: Layer,
    pub returned: Returned,
}

/// A refusal: the cause, and the value that its rule names.
#[derive(Clone, Copy, Debug)]
pub struct Refusal {
    pub cause: Cause,
    pub value: u64,
}

impl Refusal {
    /// A refusal for a cause, with its value.
    pub fn new(cause: Cause, value: u64) -> Refusal
        ensures { result ≡ record { cause = cause; value = value } }
    {
        Refusal { cause, value }
    }
}

impl fmt::Display for Refusal {
    ghost output = { λ r. Some (refusal_text r) };

    fn fmt<W: fmt::Write>(&self, f: &mut fmt::Formatter<W>) -> fmt::Result {
        write!(f, "{} {}", self.cause.number(), self.value)
    }
}

impl Error for Refusal {}

// A row of the table in `rule`.
fn row(number: u16, layer: Layer, returned: Returned) -> Rule
    ensures { result ≡ record { number = number; layer = layer; returned = returned } }
{
    Rule {
        number,
        layer,
        returned,
    }
}

impl Cause {
    /// The number, the layer and the kind of value of this cause.
    pub fn rule(self) -> Rule
        ensures { result ≡ rule_of self }
    {
        match self {
            Cause::BufferSize => row(10, Layer::Call, Returned::Zero),
            Cause::DatagramSize => row(11, Layer::Reading, Returned::Zero),
            Cause::Protocol => row(12, Layer::Reading, Returned::Place(0)),
            Cause::Version => row(12, Layer::Reading, Returned::Place(1)),
            Cause::Trailer => row(13, Layer::Reading, Returned::TrailerPlace),
            Cause::Market => row(14, Layer::Reading, Returned::Place(4)),
            Cause::Channel => row(14, Layer::Reading, Returned::Place(6)),
            Cause::FlagBits => row(15, Layer::Reading, Returned::Place(18)),
            Cause::HeaderSize => row(16, Layer::Reading, Returned::Place(2)),
            Cause::ControlShape => row(17, Layer::Reading, Returned::Place(6)),
            Cause::MessageCount => row(18, Layer::Reading, Returned::Place(16)),
            Cause::DataFlag => row(18, Layer::Reading, Returned::Place(18)),
            Cause::NumberRange => row(19, Layer::Reading, Returned::Place(8)),
            Cause::Fragment => row(21, Layer::Reading, Returned::Place(20)),
            Cause::FragmentMismatch => row(22, Layer::Joining, Returned::Place(20)),
            Cause::FragmentsTooLong => row(23, Layer::Joining, Returned::Place(20)),
            Cause::HeldBodySize => row(24, Layer::Call, Returned::Zero),
            Cause::AlreadyHeld => row(25, Layer::Call, Returned::Zero),
            Cause::CoderNotReady => row(31, Layer::Coding, Returned::BodyStart),
            Cause::BodyChecksum => row(32, Layer::Coding, Returned::ChecksumPlace),
            Cause::MessageLengths => row(41, Layer::Splitting, Returned::MessageIndex),
            Cause::ShelfFull => row(51, Layer::Placing, Returned::First),
            Cause::PastEnd => row(52, Layer::Placing, Returned::SeqNum),
            Cause::OutletFull => row(53, Layer::Placing, Returned::Next),
            Cause::JudgeNumber => row(54, Layer::Call, Returned::Next),
            Cause::GapRowsFull => row(55, Layer::Call, Returned::Next),
            Cause::NoGapRow => row(61, Layer::Call, Returned::Last),
            Cause::RowClaimed => row(62, Layer::Call, Returned::Last),
            Cause::RowNotClaimed => row(63, Layer::Call, Returned::Last),
            Cause::MakeUpSize => row(64, Layer::Call, Returned::Length),
            Cause::ForeignClaim => row(65, Layer::Call, Returned::Claim),
            Cause::NotClosable => row(71, Layer::Call, Returned::Next),
            Cause::Opening => row(72, Layer::Call, Returned::Zero),
            Cause::PartSize => row(73, Layer::Call, Returned::Zero),
            Cause::Capture => row(81, Layer::Call, Returned::Record),
            Cause::PackArgument => row(91, Layer::Call, Returned::Zero),
            Cause::SealNotReady => row(92, Layer::Call, Returned::Zero),
        }
    }

    /// The number under which this cause is told.
    pub fn number(self) -> u16
        ensures { result ≡ (rule_of self).number }
    {
        self.rule().number
    }
}
