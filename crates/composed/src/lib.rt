// What ties a composed capture to its text: the function stands for the theorem of its contract.
#![tactic(auto)]

ghost use Rattle.composed.specs.Composed.{Composes};

/// A composed capture has the channel, the start and the records that the lines of its text stand for, and reads back as these.
pub fn composed_reads_back()
    ensures { Composes }
{}
