// The piece of a coded body that a fragment brings.
ghost use Rattle.std.specs.Prelude.{◌≡◌, ◌-◌, ◌<◌, ◌≤◌, true, false, length, IfOk, OnOk, IfErr, OnErr};
ghost use Rattle.base.specs.Limits.{max_fragments};
ghost use Rattle.base.specs.declared.refusal.Cause.TheVariants.{Fragment};
ghost use Rattle.partials.specs.Joining.{misplaced};

use super::PartialHead;
use base::limits::MAX_FRAGMENTS;
use base::{Cause, Refusal};

// Where the fragment's number stands in its datagram.
pub(crate) const FRAGMENT_PLACE: u64 = 20;

// A piece that its packet can have, at its index from 0.
#[derive(Clone, Copy)]
pub(crate) struct Piece<'a> {
    pub(crate) head: PartialHead,
    pub(crate) index: usize,
    pub(crate) bytes: &'a [u8],
    ghost few: { head.total ≤ max_fragments },
    ghost within: { index < head.total },
    ghost some: { 0 < length bytes.now },
}

impl<'a> Piece<'a> {
    // The piece of a fragment by its number, if there can be such a fragment.
    pub(crate) fn new(head: PartialHead, number: u16, bytes: &'a [u8]) -> Result<Piece<'a>, Refusal>
        ensures placed { OnOk result (misplaced head number bytes.now ≡ false) }
        ensures head { IfOk result (λ piece. piece.head ≡ head) }
        ensures index { IfOk result (λ piece. piece.index ≡ number - 1) }
        ensures bytes { IfOk result (λ piece. piece.bytes.now ≡ bytes.now) }
        ensures misplaced { OnErr result (misplaced head number bytes.now ≡ true) }
        ensures refusal { IfErr result (λ refusal. refusal ≡ record { cause = Fragment; value = 20 }) }
    {
        if head.total > MAX_FRAGMENTS || number == 0 || number > head.total || bytes.is_empty() {
            return Err(Refusal::new(Cause::Fragment, FRAGMENT_PLACE));
        }
        Ok(Piece {
            head,
            index: usize::from(number) - 1,
            bytes,
        })
    }
}
