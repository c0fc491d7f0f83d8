// What a call answers where it is not refused.
ghost use Rattle.std.specs.Prelude.{◌≡◌};
ghost use Rattle.account.specs.Answers.{answer_number};

/// What came of a call.
#[derive(Clone, Copy)]
pub enum Answer {
    /// The call was done; for a release: nothing is held.
    Done,
    /// A packet was delivered.
    Delivered,
    /// A packet is held until its number is expected.
    Held,
    /// A packet's first number is below the next expected.
    Expired,
    /// A packet with this first number is held already.
    AlreadyHeld,
    /// A fragment was kept.
    FragmentKept,
    /// A fragment with this number is there already.
    FragmentAgain,
    /// A heartbeat.
    Heartbeat,
    /// A stream end.
    StreamEnd,
    /// The lowest packet that is held is above the next expected number.
    Waiting,
}

impl Answer {
    /// The number under which this answer is told.
    pub fn number(self) -> u8
        ensures { result ≡ answer_number self }
    {
        match self {
            Answer::Done => 0,
            Answer::Delivered => 1,
            Answer::Held => 2,
            Answer::Expired => 3,
            Answer::AlreadyHeld => 4,
            Answer::FragmentKept => 5,
            Answer::FragmentAgain => 6,
            Answer::Heartbeat => 7,
            Answer::StreamEnd => 8,
            Answer::Waiting => 9,
        }
    }
}
