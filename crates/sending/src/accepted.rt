// Arguments of the packer that no row refuses, and how their datagram is written.
ghost use Rattle.std.specs.Prelude.{◌≡◌, ◌+◌, ◌-◌, ◌≤◌, ◌++◌, [], length, replicate};
ghost use Rattle.sending.specs.Packing.{piece_of, head_for, header_for, coded_for, datagram_for, PiecesFit};
ghost use Rattle.sending.specs.Writing.{written};

use crate::packing::Packing;
use crate::writer::Writer;
use base::adler32;
use base::limits::BODY_ROOM;
use parts::SealingCoder;
use wire::datagram::{MARKET, PROTOCOL, VERSION};

// A packing and its plain body, which may be written as they are.
#[derive(Clone, Copy)]
pub(crate) struct Accepted<'a> {
    pub(crate) packing: Packing,
    pub(crate) plain: &'a [u8],
    ghost sized: { length plain.now ≤ 4096 },
    ghost fits: { PiecesFit packing plain.now },
}

impl Accepted<'_> {
    // The five words that every header has.
    #[tactic(auto, using(base::proofs::Fields::eight_bytes))]
    fn append_head(&self, writer: &mut Writer<'_>)
        requires { written writer.old ≡ [] }
        ensures reference { writer.new.buffer.ghost_name ≡ writer.old.buffer.ghost_name }
        ensures front { written writer.new ≡ head_for self.now.packing }
    {
        let packing = self.packing;
        writer.append(&[PROTOCOL, VERSION, packing.header_words(), packing.sender]);
        writer.append(&MARKET.to_be_bytes());
        writer.append(&packing.channel.to_be_bytes());
        writer.append(&packing.first.to_be_bytes());
        writer.append(&packing.count.to_be_bytes());
        writer.append(&packing.flag_word().to_be_bytes());
    }

    fn append_header(&self, writer: &mut Writer<'_>)
        requires { written writer.old ≡ [] }
        ensures reference { writer.new.buffer.ghost_name ≡ writer.old.buffer.ghost_name }
        ensures front { written writer.new ≡ header_for self.now.packing self.now.plain.now }
    {
        self.append_head(writer);
        if self.packing.is_cut() {
            let total = self.packing.total_for(self.plain) as u16;
            writer.append(&total.to_be_bytes());
            writer.append(&self.packing.fragment.to_be_bytes());
        }
        if self.packing.checksum {
            writer.append(&adler32(self.plain).to_be_bytes());
        }
    }

    // The whole body as it is sent, in room for the longest.
    fn encode<'a, C: SealingCoder>(&self, coder: &C, room: &'a mut [u8; BODY_ROOM]) -> &'a [u8]
        ensures coded { result.now ≡ coded_for (C.SealingCoder.seals coder.now) self.now.packing self.now.plain.now }
        ensures size { length result.now ≡ length self.now.plain.now }
    {
        let body = &mut room[..self.plain.len()];
        body.copy_from_slice(self.plain);
        if self.packing.sealed {
            coder.seal(self.packing.first, body);
        }
        body
    }

    // Writes the datagram, and zeros behind it.
    #[tactic(auto, unfolding(crate::specs::Packing::datagram_for))]
    pub(crate) fn write<C: SealingCoder>(&self, coder: &C, buffer: &mut [u8]) -> usize
        requires { length buffer.old ≡ 1472 }
        ensures end { result ≡ length (datagram_for (C.SealingCoder.seals coder.now) self.now.packing self.now.plain.now) }
        ensures whole { buffer.new ≡ datagram_for (C.SealingCoder.seals coder.now) self.now.packing self.now.plain.now ++ replicate (1472 - result) 0 }
        ensures size { length (coded_for (C.SealingCoder.seals coder.now) self.now.packing self.now.plain.now) ≡ length self.now.plain.now }
    {
        let mut room = [0; BODY_ROOM];
        let coded = self.encode(coder, &mut room);
        let mut writer = Writer::new(buffer);
        self.append_header(&mut writer);
        writer.append(self.packing.piece_of(coded));
        writer.append_trailer();
        writer.finish()
    }
}
