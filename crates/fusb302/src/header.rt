// Control messages that the device builds, and the packets that it hears (01, 'Line code (PD)', header).
ghost use Rattle.std.specs.Prelude.{◌≡◌, ◌≤◌, ◌<◌, length};
ghost use Rattle.line.specs.Numbered.{sop_number};
ghost use Rattle.line.specs.Reader.{octet_room};
ghost use Rattle.machine.specs.Headers.{heard_header, message_id, is_control};

use crate::refusals::No;
use line::kind::SopKind;
use line::read::OCTET_ROOM;

// The control messages that the device sends or looks for.
#[derive(Clone, Copy)]
pub(crate) enum ControlMessage {
    GoodCrc,
    SoftReset,
}

impl From<ControlMessage> for u16 {
    ghost use Rattle.fusb302.specs.Messages.{type_number};

    ghost from_gives = { λ message n. n ≡ type_number message };

    fn from(message: ControlMessage) -> u16 {
        match message {
            ControlMessage::GoodCrc => 1,
            ControlMessage::SoftReset => 0xD,
        }
    }
}

// A message that is a header alone: its type, kind and MessageID, and the Switches1 that its roles and revision are of.
#[derive(Clone, Copy)]
pub(crate) struct Control {
    pub(crate) message: ControlMessage,
    pub(crate) kind: SopKind,
    pub(crate) switches1: u8,
    pub(crate) id: u8,
    ghost three_bits: { id < 8 },
}

impl Control {
    ghost use Rattle.machine.specs.Headers.{header};
    ghost use Rattle.fusb302.specs.Messages.{type_number, frame_of};

    // Both roles are 0 on every kind but SOP, and the count is 0.
    #[tactic(auto, using(crate::proofs::Octets::on_sop, crate::proofs::Octets::elsewhere, crate::proofs::Octets::four_bits))]
    fn header(self) -> u16
        ensures { result ≡ header (type_number self.message) (sop_number self.kind) self.switches1 self.id }
    {
        let sw = u16::from(self.switches1);
        let common = (((sw >> 5) & 3) << 6) | (u16::from(self.id) << 9) | u16::from(self.message);
        if self.kind == SopKind::Sop {
            return (((sw >> 4) & 1) << 5) | (((sw >> 7) & 1) << 8) | common;
        }
        common
    }

    // Low octet first.
    #[tactic(auto, unfolding(machine::specs::Headers::two_octets))]
    pub(crate) fn octets(self) -> [u8; 2]
        ensures { result ≡ (frame_of self).octets }
    {
        self.header().to_le_bytes()
    }
}

// The header that octets begin with, low octet first.
fn heard(octets: &[u8]) -> u16
    requires { 2 ≤ length octets.now }
    ensures { result ≡ heard_header octets.now }
{
    u16::from_le_bytes([octets[0], octets[1]])
}

// MessageID of a header: bits 11:9, for which `as` needs no `unwrap`.
pub(crate) fn message_id(octets: &[u8]) -> u8
    requires { 2 ≤ length octets.now }
    ensures { (result ≡ message_id octets.now) × (result < 8) }
{
    ((heard(octets) >> 9) & 7) as u8
}

// A packet heard: its kind, and its octets, of which the last four are the CRC.
#[derive(Clone, Copy)]
pub(crate) struct Packet<'a> {
    pub(crate) kind: SopKind,
    pub(crate) octets: &'a [u8],
    ghost least: { 6 ≤ length octets.now },
    ghost most: { length octets.now ≤ octet_room },
}

impl<'a> Packet<'a> {
    ghost use Rattle.std.specs.Prelude.{◌&&◌, eqb};
    ghost use Rattle.fusb302.specs.Messages.{type_number, Takes};

    // Any number may be given for a kind, and any octets.
    #[tactic(auto, unfolding(crate::specs::Messages::packet_no))]
    pub(crate) fn new(kind: u32, octets: &'a [u8]) -> Result<Packet<'a>, No>
        ensures { Takes kind octets.entry result }
    {
        let kind = SopKind::try_from(kind)?;
        if octets.len() < 6 || OCTET_ROOM < octets.len() {
            return Err(No::WrongLength);
        }
        Ok(Packet { kind, octets })
    }

    pub(crate) fn message_id(self) -> u8
        ensures { (result ≡ message_id self.entry.octets.now) × (result < 8) }
    {
        message_id(self.octets)
    }

    // Whether it is a control message of a type: bits 3:0, no data objects (14:12), two octets and the CRC's four.
    #[tactic(auto, using(crate::proofs::Octets::tested, crate::proofs::Octets::other), unfolding(machine::specs::Headers::is_control))]
    pub(crate) fn is_control(self, message: ControlMessage) -> bool
        ensures { result ≡ is_control (type_number message) self.entry.octets.now }
    {
        if self.octets.len() != 6 {
            return false;
        }
        let header = heard(self.octets);
        header & 15 == u16::from(message) && (header >> 12) & 7 == 0
    }

    // Whether its kind and MessageID are those that were sent.
    pub(crate) fn answers(self, sent: SopKind, id: u8) -> bool
        ensures { result ≡ (eqb (sop_number sent) (sop_number self.entry.kind) && eqb id (message_id self.entry.octets.now)) }
    {
        sent == self.kind && id == self.message_id()
    }
}
