// Registers and their bits by their names in data sheet 004, and the tests on them.
ghost use Rattle.std.specs.Prelude.{◌≡◌, ◌-◌, ◌≤◌, get_or};
ghost use Rattle.machine.specs.Registers.{stored_bits, has};
ghost use Rattle.machine.specs.Status.{flag};
ghost use Rattle.machine.specs.Requests.{driver_on, retries_of};
ghost use Rattle.fusb302.specs.Places.{Placed};

use crate::device::{Cell, Device};

// Switches0
pub(crate) const MEAS_CC2: u8 = 0x08;

pub(crate) const MEAS_CC1: u8 = 0x04;

// Switches1
pub(crate) const AUTO_CRC: u8 = 0x04;

pub(crate) const TXCC: u8 = 0x03;

// Measure
pub(crate) const MEAS_VBUS: u8 = 0x40;

pub(crate) const MDAC: u8 = 0x3F;

// Control0
pub(crate) const TX_FLUSH: u8 = 0x40;

pub(crate) const INT_MASK: u8 = 0x20;

pub(crate) const AUTO_PRE: u8 = 0x02;

pub(crate) const TX_START: u8 = 0x01;

// Control1
pub(crate) const ENSOP2DB: u8 = 0x40;

pub(crate) const ENSOP1DB: u8 = 0x20;

pub(crate) const RX_FLUSH: u8 = 0x04;

pub(crate) const ENSOP2: u8 = 0x02;

pub(crate) const ENSOP1: u8 = 0x01;

// Control3
pub(crate) const SEND_HARD_RESET: u8 = 0x40;

pub(crate) const AUTO_HARDRESET: u8 = 0x10;

pub(crate) const AUTO_SOFTRESET: u8 = 0x08;

pub(crate) const AUTO_RETRY: u8 = 0x01;

// Power
pub(crate) const PWR2: u8 = 0x04;

// Reset
pub(crate) const PD_RESET: u8 = 0x02;

pub(crate) const SW_RES: u8 = 0x01;

// Status0a
pub(crate) const SOFTFAIL: u8 = 0x20;

pub(crate) const RETRYFAIL: u8 = 0x10;

pub(crate) const SOFTRST: u8 = 0x02;

pub(crate) const HARDRST: u8 = 0x01;

// Status1a
pub(crate) const RXSOP2DB: u8 = 0x04;

pub(crate) const RXSOP1DB: u8 = 0x02;

pub(crate) const RXSOP: u8 = 0x01;

// Interrupta
pub(crate) const I_SOFTFAIL: u8 = 0x20;

pub(crate) const I_RETRYFAIL: u8 = 0x10;

pub(crate) const I_HARDSENT: u8 = 0x08;

pub(crate) const I_TXSENT: u8 = 0x04;

pub(crate) const I_SOFTRST: u8 = 0x02;

pub(crate) const I_HARDRST: u8 = 0x01;

// Interruptb
pub(crate) const I_GCRCSENT: u8 = 0x01;

// Status0
pub(crate) const VBUSOK: u8 = 0x80;

pub(crate) const COMP: u8 = 0x20;

pub(crate) const CRC_CHK: u8 = 0x10;

pub(crate) const ALERT: u8 = 0x08;

// Status1
pub(crate) const RXSOP2: u8 = 0x80;

pub(crate) const RXSOP1: u8 = 0x40;

pub(crate) const RX_EMPTY: u8 = 0x20;

pub(crate) const RX_FULL: u8 = 0x10;

pub(crate) const TX_EMPTY: u8 = 0x08;

pub(crate) const TX_FULL: u8 = 0x04;

// Interrupt
pub(crate) const I_VBUSOK: u8 = 0x80;

pub(crate) const I_COMP_CHNG: u8 = 0x20;

pub(crate) const I_CRC_CHK: u8 = 0x10;

pub(crate) const I_ALERT: u8 = 0x08;

pub(crate) const I_BC_LVL: u8 = 0x01;

// Data sheet 004, 'Device ID': what stands there.
pub(crate) const DEVICE_ID: u8 = 0x91;

// Registers by their place among the cells: address less 2.
// Numbers and no enum, since each is an index of `cells`, and `Refuses` and `WriteServed` speak of addresses.
pub(crate) const SWITCHES0: usize = 0;

pub(crate) const SWITCHES1: usize = 1;

pub(crate) const MEASURE: usize = 2;

pub(crate) const CONTROL0: usize = 4;

pub(crate) const CONTROL1: usize = 5;

pub(crate) const CONTROL3: usize = 7;

pub(crate) const MASK: usize = 8;

pub(crate) const POWER: usize = 9;

pub(crate) const RESET: usize = 10;

pub(crate) const MASKA: usize = 12;

pub(crate) const MASKB: usize = 13;

// What stands at an address (01, 'Registers').
#[derive(Clone, Copy)]
pub(crate) enum Place {
    Id,
    Stored(Cell),
    Shown,
    Port,
}

// The range of what is shown, and each other address by itself (01, 'How each place should look').
#[tactic(auto, unfolding(crate::specs::Places::Placed, machine::specs::Registers::exists, machine::specs::Registers::is_stored, machine::specs::Registers::read_only))]
pub(crate) fn place_of(address: u8) -> Option<Place>
    ensures { Placed address result }
{
    match address {
        0x01 => Some(Place::Id),
        0x02
        | 0x03
        | 0x04
        | 0x05
        | 0x06
        | 0x07
        | 0x08
        | 0x09
        | 0x0A
        | 0x0B
        | 0x0C
        | 0x0D
        | 0x0E
        | 0x0F
        | 0x10 => Some(Place::Stored(Cell {
            at: usize::from(address - 2),
        })),
        0x3C..=0x42 => Some(Place::Shown),
        0x43 => Some(Place::Port),
        _ => None,
    }
}

// The bits of a register that are stored.
pub(crate) fn stored_bits(cell: Cell) -> u8
    ensures { result ≡ get_or stored_bits cell.at 0 }
{
    let (_, stored) = Device::REGISTERS[cell.at];
    stored
}

// Whether some bit of a mask is 1.
#[tactic(auto, unfolding(machine::specs::Registers::has))]
pub(crate) fn has(mask: u8, x: u8) -> bool
    ensures { result ≡ has mask x }
{
    x & mask != 0
}

// A mask, or no bit.
pub(crate) fn flag(mask: u8, on: bool) -> u8
    ensures { (result ≡ flag mask on) × (result ≤ mask) }
{
    if on { mask } else { 0 }
}

// Exactly one of Switches1's bits 1:0.
#[tactic(auto, unfolding(machine::specs::Requests::driver_on))]
pub(crate) fn driver_on(switches1: u8) -> bool
    ensures { result ≡ driver_on switches1 }
{
    matches!(switches1 & TXCC, 1 | 2)
}

// How often a message is sent again, by Control3.
#[tactic(auto, unfolding(machine::specs::Requests::retries_of))]
pub(crate) fn retries_of(control3: u8) -> u8
    ensures { result ≡ retries_of control3 }
{
    if has(AUTO_RETRY, control3) {
        (control3 >> 1) & 3
    } else {
        0
    }
}
