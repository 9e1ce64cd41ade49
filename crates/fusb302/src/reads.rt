// What can be read: registers, status, interrupts, the port; and the level of INT_N (01, 'Registers').
ghost use Rattle.std.specs.Prelude.{◌≡◌, ◌||◌, ◌+◌, ◌-◌, ◌≤◌, eqb, length, get_or};
ghost use Rattle.machine.specs.Status.{tx_room, rx_room, RXSOP2, RXSOP1, flag, last_is, status1a_of, status0_of, status1_of, shown};
ghost use Rattle.machine.specs.Events.{read};
ghost use Rattle.fusb302.specs.View.{view, Asks, Level};
ghost use Rattle.fusb302.specs.Serves.{Serves, PortRead};

use crate::bits::{
    ALERT, COMP, CONTROL0, CRC_CHK, DEVICE_ID, INT_MASK, MASK, MASKA, MASKB, Place, RX_EMPTY,
    RX_FULL, RXSOP, RXSOP1, RXSOP1DB, RXSOP2, RXSOP2DB, TX_EMPTY, TX_FULL, VBUSOK, flag, has,
    place_of,
};
use crate::device::{Device, Outcome};
use crate::fifo::Fifo;
use crate::queue::Queue;
use crate::refusals::No;
use line::kind::SopKind;
use line::write::FRAME_ROOM;

// Either FIFO full.
fn either_full(rx: usize, tx: usize) -> bool
    ensures { result ≡ (eqb rx rx_room || eqb tx tx_room) }
{
    rx == Fifo::CAPACITY || tx == Queue::CAPACITY
}

impl Device {
    // ---- status

    #[tactic(auto, unfolding(machine::specs::Status::status1a_of))]
    fn status1a(self) -> u8
        ensures { result ≡ status1a_of (view self) }
    {
        match self.status.kind {
            Some(SopKind::SopDoublePrimeDebug) => RXSOP2DB,
            Some(SopKind::SopPrimeDebug) => RXSOP1DB,
            Some(SopKind::Sop) => RXSOP,
            _ => 0,
        }
    }

    #[tactic(auto, using(crate::proofs::Showing::held_length, crate::proofs::Showing::queued_length), unfolding(machine::specs::Status::status0_of))]
    fn status0(self) -> u8
        ensures { result ≡ status0_of (view self) }
    {
        let full = either_full(self.rx.len, self.tx.len);
        let readings = self.readings();
        flag(VBUSOK, readings.vbus_ok)
            + flag(COMP, readings.comp)
            + flag(CRC_CHK, self.status.crc_chk)
            + flag(ALERT, full)
            + readings.bc_lvl
    }

    // The kinds that 41 shows.
    fn rx_kind(self) -> u8
        ensures { (result ≡ flag RXSOP2 (last_is (view self) 2) + flag RXSOP1 (last_is (view self) 1)) × (result ≤ RXSOP2 + RXSOP1) }
    {
        match self.status.kind {
            Some(SopKind::SopDoublePrime) => RXSOP2,
            Some(SopKind::SopPrime) => RXSOP1,
            _ => 0,
        }
    }

    #[tactic(auto, using(crate::proofs::Showing::held_length, crate::proofs::Showing::queued_length), unfolding(machine::specs::Status::status1_of))]
    fn status1(self) -> u8
        ensures { result ≡ status1_of (view self) }
    {
        self.rx_kind()
            + flag(RX_EMPTY, self.rx.len == 0)
            + flag(RX_FULL, self.rx.len == Fifo::CAPACITY)
            + flag(TX_EMPTY, self.tx.len == 0)
            + flag(TX_FULL, self.tx.len == Queue::CAPACITY)
    }

    // By the address: `place_of` has one range for what is shown, since 01 names that form.
    fn shown(self, address: u8) -> u8
        requires { (0x3C ≤ address) × (address ≤ 0x42) }
        ensures { result ≡ get_or (shown (view self)) (address - 0x3C) 0 }
    {
        match address {
            0x3C => self.status.status0a,
            0x3D => self.status1a(),
            0x3E => self.ints.a,
            0x3F => self.ints.b,
            0x40 => self.status0(),
            0x41 => self.status1(),
            _ => self.ints.main,
        }
    }

    // The level of INT_N: low (false) exactly when interrupts are on and an unmasked one is set.
    #[tactic(auto, unfolding(machine::specs::Status::int_low, machine::specs::Registers::cell))]
    pub fn int_n(self) -> bool
        requires { Asks self }
        ensures { Level self result }
    {
        let unmasked = has(!self.cells[MASKA], self.ints.a)
            || has(!self.cells[MASKB], self.ints.b)
            || has(!self.cells[MASK], self.ints.main);
        has(INT_MASK, self.cells[CONTROL0]) || !unmasked
    }

    // ---- reads

    #[tactic(auto, using(crate::proofs::Answering::port_empty, crate::proofs::Answering::port_read))]
    fn read_port(mut self) -> Outcome
        requires { Asks self }
        ensures { PortRead self result }
    {
        let mut rx = self.rx;
        let Some(octet) = rx.pop() else {
            return self.refuse(No::NothingHeld);
        };
        self.rx = rx;
        self.give(octet)
    }

    #[tactic(auto, using(crate::proofs::Answering::is_shown, crate::proofs::Answering::is_nowhere, crate::proofs::Answering::read_small, crate::proofs::Answering::read_nowhere, crate::proofs::Answering::read_id, crate::proofs::Answering::read_stored, crate::proofs::Answering::read_at_port))]
    pub fn read(mut self, address: u8, symbols: &mut [u8]) -> Outcome
        requires { Asks self }
        ensures { Serves (read (length symbols.old) address) self symbols.old result symbols.new }
    {
        if symbols.len() < FRAME_ROOM {
            return self.refuse(No::SmallBuffer);
        }
        let Some(place) = place_of(address) else {
            return self.refuse(No::NoSuchAddress);
        };
        match place {
            Place::Id => self.give(DEVICE_ID),
            Place::Stored(cell) => {
                // From a copy: where a place that is computed is taken of the device itself, all of it is laid out in memory first, and the bench takes a tenth longer.
                let cells = self.cells;
                self.give(cells[cell.at])
            }
            Place::Shown => {
                let octet = self.shown(address);
                self.ints = self.ints.cleared(address);
                self.give(octet)
            }
            Place::Port => self.read_port(),
        }
    }
}
