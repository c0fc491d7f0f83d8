// Packing a datagram: refusals in their order, and then the writing.
ghost use Rattle.std.specs.Prelude.{◌≡◌, ◌≤◌, length, take, is_ok, IfOk, IfErr, Ok, Err, OnOk};
ghost use Rattle.base.specs.Refusals.{first_of};
ghost use Rattle.sending.specs.Packing.{coded_for, argument_rows, piece_rows, PiecesFit, ready_rows, tested_of, packed_into, length_in, buffer_after};
ghost use Rattle.sending.specs.Round.{ReadBack};

use crate::accepted::Accepted;
use crate::packing::Packing;
use base::limits::{BODY_ROOM, MAX_DATAGRAM, MAX_FRAGMENTS, MAX_MESSAGES, MAX_NUMBER, TRAILER};
use base::{Cause, Refusal};
use parts::SealingCoder;
use wire::split;

fn argument_rows(packing: Packing, plain: &[u8]) -> Result<(), Refusal>
    ensures value { result ≡ first_of (argument_rows packing plain.now) (Ok tt) }
    ensures sized { OnOk result (length plain.now ≤ 4096) }
{
    let refusal = Refusal::new(Cause::PackArgument, 0);
    if packing.channel == 0 {
        return Err(refusal);
    }
    if packing.count == 0 || packing.count > MAX_MESSAGES {
        return Err(refusal);
    }
    if packing.first == 0 || packing.first > MAX_NUMBER + 1 - u64::from(packing.count) {
        return Err(refusal);
    }
    if plain.len() > BODY_ROOM || split(plain, packing.count).is_err() {
        return Err(refusal);
    }
    Ok(())
}

fn piece_rows(packing: Packing, plain: &[u8]) -> Result<(), Refusal>
    ensures value { result ≡ first_of (piece_rows packing plain.now) (Ok tt) }
    ensures fits { OnOk result (PiecesFit packing plain.now) }
{
    let refusal = Refusal::new(Cause::PackArgument, 0);
    if packing.is_cut() {
        let total = packing.total_for(plain);
        if total > usize::from(MAX_FRAGMENTS) {
            return Err(refusal);
        }
        if packing.fragment == 0 || usize::from(packing.fragment) > total {
            return Err(refusal);
        }
    } else if packing.fragment != 0 {
        return Err(refusal);
    }
    let header = 4 * usize::from(packing.header_words());
    if packing.piece_of(plain).len() > MAX_DATAGRAM - TRAILER - header {
        return Err(refusal);
    }
    Ok(())
}

fn ready_rows<C: SealingCoder>(coder: &C, packing: Packing) -> Result<(), Refusal>
    ensures { result ≡ first_of (ready_rows (C.OpeningCoder.ready coder.now) packing) (Ok tt) }
{
    if packing.sealed && !coder.is_ready(packing.first) {
        return Err(Refusal::new(Cause::SealNotReady, 0));
    }
    Ok(())
}

// Tries all rows.
#[tactic(auto, using(crate::proofs::Tested::tested_steps))]
fn accept<'a, C: SealingCoder>(
    coder: &C,
    packing: Packing,
    plain: &'a [u8],
) -> Result<Accepted<'a>, Refusal>
    ensures refused { IfErr result (λ refusal. tested_of (C.OpeningCoder.ready coder.now) packing plain.now ≡ Err refusal) }
    ensures accepted { OnOk result (tested_of (C.OpeningCoder.ready coder.now) packing plain.now ≡ Ok tt) }
    ensures packing { IfOk result (λ accepted. accepted.packing ≡ packing) }
    ensures plain { IfOk result (λ accepted. accepted.plain.now ≡ plain.now) }
{
    argument_rows(packing, plain)?;
    piece_rows(packing, plain)?;
    ready_rows(coder, packing)?;
    Ok(Accepted { packing, plain })
}

/// Packs a datagram into a buffer of 1,472 bytes and answers its length; zero stands behind it. A refusal leaves the
/// buffer as it was. What is packed is read back as it was asked for.
#[tactic(auto, using(crate::proofs::Tested::packed_tested))]
pub fn pack<C: SealingCoder>(
    coder: &C,
    packing: Packing,
    plain: &[u8],
    buffer: &mut [u8],
) -> Result<usize, Refusal>
    ensures answer { result ≡ length_in (packed_into (C.OpeningCoder.ready coder.now) (C.SealingCoder.seals coder.now) packing plain.now buffer.old) }
    ensures after { buffer.new ≡ buffer_after buffer.old (packed_into (C.OpeningCoder.ready coder.now) (C.SealingCoder.seals coder.now) packing plain.now buffer.old) }
    ensures reads { IfOk result (λ n. ReadBack packing plain.now (coded_for (C.SealingCoder.seals coder.now) packing plain.now) (take n buffer.new)) }
{
    if buffer.len() != MAX_DATAGRAM {
        return Err(Refusal::new(Cause::BufferSize, 0));
    }
    let accepted = accept(coder, packing, plain)?;
    Ok(accepted.write(coder, buffer))
}
