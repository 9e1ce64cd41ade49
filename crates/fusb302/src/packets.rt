// Packets heard (01, 'Packets heard').
ghost use Rattle.std.specs.Prelude.{◌≡◌, true, length};
ghost use Rattle.line.specs.Numbered.{sop_number};
ghost use Rattle.machine.specs.Requests.{acknowledged};
ghost use Rattle.machine.specs.Packets.{kind_on, fits_rx, awaited, replies_to, rx_token, checks, soft_reset_heard, noted, keeps, stores, accepts, hears};
ghost use Rattle.machine.specs.Events.{packet};
ghost use Rattle.fusb302.specs.View.{view, Asks};
ghost use Rattle.fusb302.specs.Serves.{Becomes, Does, Serves};

use crate::bits::{
    AUTO_CRC, AUTO_PRE, CONTROL0, CONTROL1, ENSOP1, ENSOP1DB, ENSOP2, ENSOP2DB, I_ALERT, I_CRC_CHK,
    I_GCRCSENT, I_SOFTRST, I_TXSENT, SOFTRST, SWITCHES1, driver_on, has,
};
use crate::device::{Device, Outcome};
use crate::fifo::Fifo;
use crate::header::{Control, ControlMessage, Packet, message_id};
use crate::refusals::No;
use crate::send::put_control;
use line::crc::right;
use line::kind::SopKind;
use line::write::FRAME_ROOM;

// The token of a kind in Rx (01, 'Line code (PD)', table).
fn rx_token(kind: SopKind) -> u8
    ensures { result ≡ rx_token (sop_number kind) }
{
    match kind {
        SopKind::Sop => 0xE0,
        SopKind::SopPrime => 0xC0,
        SopKind::SopDoublePrime => 0xA0,
        SopKind::SopPrimeDebug => 0x80,
        SopKind::SopDoublePrimeDebug => 0x60,
    }
}

impl Device {
    // Whether packets of a kind are heard, by Control1.
    #[tactic(auto, unfolding(machine::specs::Packets::kind_on, machine::specs::Registers::cell))]
    pub(crate) fn kind_on(self, kind: SopKind) -> bool
        ensures { result ≡ kind_on (sop_number kind) (view self) }
    {
        let control1 = self.cells[CONTROL1];
        match kind {
            SopKind::Sop => true,
            SopKind::SopPrime => has(ENSOP1, control1),
            SopKind::SopDoublePrime => has(ENSOP2, control1),
            SopKind::SopPrimeDebug => has(ENSOP1DB, control1),
            SopKind::SopDoublePrimeDebug => has(ENSOP2DB, control1),
        }
    }

    // A GoodCRC of the kind and MessageID of the frame that is in flight.
    #[tactic(auto, using(crate::proofs::Hearing::awaits_idle, crate::proofs::Hearing::awaits_other, crate::proofs::Hearing::awaits_reset, crate::proofs::Hearing::awaits_nothing, crate::proofs::Hearing::awaits_message))]
    fn awaits(self, packet: Packet) -> bool
        ensures { result ≡ awaited (sop_number packet.entry.kind) packet.entry.octets.now (view self) }
    {
        let Some(request) = self.request else {
            return false;
        };
        if !packet.is_control(ControlMessage::GoodCrc) {
            return false;
        }
        if let Some(resetting) = request.resetting {
            return packet.answers(resetting, 0);
        }
        let Some(message) = self.tx.message() else {
            return false;
        };
        packet.answers(message.kind, message_id(message.octets))
    }

    // CRC_CHK and I_CRC_CHK.
    fn checked(mut self) -> Device
        ensures { Becomes (checks (view self)) result }
    {
        self.status.crc_chk = true;
        self.raises(I_CRC_CHK)
    }

    // The awaited GoodCRC ends the request.
    fn acknowledged(self) -> Device
        ensures { Becomes (acknowledged (view self)) result }
    {
        self.over().raises_a(I_TXSENT)
    }

    fn soft_reset_heard(self) -> Device
        ensures { Becomes (soft_reset_heard (view self)) result }
    {
        self.shows(SOFTRST).raises_a(I_SOFTRST)
    }

    // What is noted of a packet whether it is stored or not.
    fn noted(self, packet: Packet) -> Device
        ensures { Becomes (noted (sop_number packet.entry.kind) packet.entry.octets.now (view self)) result }
    {
        let mut noted = self.checked();
        if self.awaits(packet) {
            noted = noted.acknowledged();
        }
        if packet.is_control(ControlMessage::SoftReset) {
            noted = noted.soft_reset_heard();
        }
        noted
    }

    // Whether a GoodCRC leaves for a packet that is stored.
    #[tactic(auto, unfolding(machine::specs::Packets::replies_to, machine::specs::Registers::cell))]
    fn replies_to(self, packet: Packet) -> bool
        ensures { result ≡ replies_to packet.entry.octets.now (view self) }
    {
        !packet.is_control(ControlMessage::GoodCrc)
            && has(AUTO_CRC, self.cells[SWITCHES1])
            && !has(AUTO_PRE, self.cells[CONTROL0])
            && driver_on(self.cells[SWITCHES1])
    }

    // Whether Rx has room for a packet behind its token.
    #[tactic(auto, using(crate::proofs::Showing::held_length))]
    pub(crate) fn fits(self, packet: Packet) -> bool
        ensures { result ≡ fits_rx packet.entry.octets.now (view self) }
    {
        self.rx.len + 1 + packet.octets.len() <= Fifo::CAPACITY
    }

    // Token and octets go to Rx, which they may make full.
    fn keep(mut self, packet: Packet) -> Device
        requires { fits_rx packet.octets.now (view self) ≡ true }
        ensures { Becomes (keeps (sop_number packet.entry.kind) packet.entry.octets.now (view self)) result }
    {
        self.rx = self.rx.store(rx_token(packet.kind), packet.octets);
        self.status.kind = Some(packet.kind);
        if self.rx.len == Fifo::CAPACITY {
            return self.raises(I_ALERT);
        }
        self
    }

    // A packet is kept, and a GoodCRC leaves if one is due.
    fn store(self, packet: Packet, frame: &mut [u8; FRAME_ROOM]) -> Outcome
        requires { fits_rx packet.octets.now (view self) ≡ true }
        ensures { Does (stores (sop_number packet.entry.kind) packet.entry.octets.now (view self)) frame.old result frame.new }
    {
        let kept = self.keep(packet);
        if self.replies_to(packet) {
            let reply = Control {
                message: ControlMessage::GoodCrc,
                kind: packet.kind,
                switches1: self.cells[SWITCHES1],
                id: packet.message_id(),
            };
            let count = put_control(reply, frame);
            return kept.raises_b(I_GCRCSENT).done(count);
        }
        kept.done(0)
    }

    // A packet whose CRC is right.
    fn accept(self, packet: Packet, frame: &mut [u8; FRAME_ROOM]) -> Outcome
        ensures { Does (accepts (sop_number packet.entry.kind) packet.entry.octets.now (view self)) frame.old result frame.new }
    {
        let noted = self.noted(packet);
        if noted.fits(packet) {
            return noted.store(packet, frame);
        }
        noted.raises(I_ALERT).done(0)
    }

    fn hear(mut self, packet: Packet, frame: &mut [u8; FRAME_ROOM]) -> Outcome
        ensures { Does (hears (sop_number packet.entry.kind) packet.entry.octets.now (view self)) frame.old result frame.new }
    {
        if self.kind_on(packet.kind) {
            if right(packet.octets) {
                return self.accept(packet, frame);
            }
            self.status.crc_chk = false;
            return self.done(0);
        }
        self.done(0)
    }

    // Hears a packet: its kind and its octets with CRC. The kind is a number, since any is answered (`Serves`).
    pub fn hear_packet(mut self, kind: u32, octets: &[u8], symbols: &mut [u8]) -> Outcome
        requires { Asks self }
        ensures { Serves (packet (length symbols.old) kind octets.now) self symbols.old result symbols.new }
    {
        let Some(frame) = symbols.first_chunk_mut::<FRAME_ROOM>() else {
            return self.refuse(No::SmallBuffer);
        };
        match Packet::new(kind, octets) {
            Ok(packet) => self.hear(packet, frame),
            Err(no) => self.refuse(no),
        }
    }
}
