// Why was there no GoodCRC? (02, A5)
ghost use Rattle.line.specs.Numbered.{sop_number};
ghost use Rattle.fusb302.specs.View.{Asks};
ghost use Rattle.fusb302.specs.Why.{Explains, ExplainsHeard};

use crate::bits::{AUTO_CRC, AUTO_PRE, CONTROL0, SWITCHES1, driver_on, has};
use crate::device::Device;
use crate::header::{ControlMessage, Packet};
use crate::refusals::No;
use line::crc::right;

// The first reason why no reply leaves for a packet, or `Leaves`: an answer as the others are, since `Explains` and `TrueOfEvent` speak of each.
// `N` as in `Reply`.
#[derive(Clone, Copy)]
pub enum Why<N = No> {
    Refused(N),
    KindOff,
    CrcWrong,
    NoRoom,
    IsGoodCrc,
    AutoCrcOff,
    AutoPreOn,
    DriverOff,
    Leaves,
}

impl Device {
    // Of a packet that is not refused.
    #[tactic(auto, unfolding(machine::specs::Why::first_cause, machine::specs::Registers::cell))]
    fn why_heard(self, packet: Packet) -> Why
        ensures { ExplainsHeard self (sop_number packet.entry.kind) packet.entry.octets.now result }
    {
        if !self.kind_on(packet.kind) {
            return Why::KindOff;
        }
        if !right(packet.octets) {
            return Why::CrcWrong;
        }
        if !self.fits(packet) {
            return Why::NoRoom;
        }
        if packet.is_control(ControlMessage::GoodCrc) {
            return Why::IsGoodCrc;
        }
        if !has(AUTO_CRC, self.cells[SWITCHES1]) {
            return Why::AutoCrcOff;
        }
        if has(AUTO_PRE, self.cells[CONTROL0]) {
            return Why::AutoPreOn;
        }
        if !driver_on(self.cells[SWITCHES1]) {
            return Why::DriverOff;
        }
        Why::Leaves
    }

    // Why a packet, its kind and its octets with CRC, would get no GoodCRC now. The device is only read. Any kind is answered (`Explains`).
    #[tactic(auto, using(crate::proofs::Explaining::refused_by, crate::proofs::Explaining::taken, crate::proofs::Queueing::sop_four))]
    pub fn why(self, kind: u32, octets: &[u8]) -> Why
        requires { Asks self }
        ensures { Explains self kind octets.now result }
    {
        match Packet::new(kind, octets) {
            Ok(packet) => self.why_heard(packet),
            Err(no) => Why::Refused(no),
        }
    }
}
