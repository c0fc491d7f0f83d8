// What ties packing to reading: each function stands for the theorem of its contract.
ghost use Rattle.sending.specs.Joining.{FragmentsJoin, PiecesJoin};
ghost use Rattle.sending.specs.Repacking.{Repacks};
ghost use Rattle.sending.specs.Round.{EveryReadsBack};

/// Whatever is packed is read back: the packet that was asked for, with its piece of the coded body.
pub fn packed_reads_back()
    ensures { EveryReadsBack }
{}

/// The pieces of a packed body, joined by their numbers, open to the plain body and split into its messages.
pub fn pieces_join()
    ensures { PiecesJoin }
{}

/// So do the pieces that are read from the datagrams of all fragments.
pub fn fragments_join()
    ensures { FragmentsJoin }
{}

/// A datagram that was read as a whole packet, with a body that opens, checks and splits, is packed again as it stood.
pub fn read_repacks()
    ensures { Repacks }
{}
