// The voltages on the pins, what the comparators show of them, and the event that gives them (02, A1).
ghost use Rattle.std.specs.Prelude.{◌≡◌, ◌+◌, ◌*◌, ◌≤◌, length};
ghost use Rattle.std.specs.Int.Bits.{bit_and};
ghost use Rattle.machine.specs.Registers.{switches0, MDAC};
ghost use Rattle.machine.specs.State.{reg, raises};
ghost use Rattle.machine.specs.Pins.{above, levels, measured, steps, readings};
ghost use Rattle.machine.specs.Status.{changes};
ghost use Rattle.machine.specs.Events.{sense};

use crate::bits::{
    I_BC_LVL, I_COMP_CHNG, I_VBUSOK, MDAC, MEAS_CC1, MEAS_CC2, MEAS_VBUS, MEASURE, POWER, PWR2,
    SWITCHES0, flag, has,
};
use crate::device::{Device, Outcome};
use crate::refusals::No;
use line::write::FRAME_ROOM;

// A voltage, on a pin or as a threshold.
#[derive(Clone, Copy, Debug, Default, PartialEq, Eq, PartialOrd, Ord)]
pub struct Millivolts(pub u16);

// MDAC in Measure: how many steps the reference lies above its lowest, and no voltage.
#[derive(Clone, Copy)]
struct MdacCode(u8);

// The voltages that the comparators are given.
#[derive(Clone, Copy, Default)]
pub struct Pins {
    pub(crate) cc1: Millivolts,
    pub(crate) cc2: Millivolts,
    pub(crate) vbus: Millivolts,
}

// VBUSOK, COMP and BC_LVL.
#[derive(Clone, Copy)]
pub(crate) struct Readings {
    pub(crate) vbus_ok: bool,
    pub(crate) comp: bool,
    pub(crate) bc_lvl: u8,
    ghost steps: { bc_lvl ≤ 3 },
}

// Data sheet 004, 'vBC_LVL' and 'vVBUSthr'.
const LEVELS: [Millivolts; 3] = [Millivolts(200), Millivolts(660), Millivolts(1230)];

const VBUS_THRESHOLD: Millivolts = Millivolts(4000);

// Data sheet 004, 'vMDACstepCC' and 'vMDACstepVBUS'.
const MDAC_STEP_CC: Millivolts = Millivolts(42);

const MDAC_STEP_VBUS: Millivolts = Millivolts(420);

impl Millivolts {
    // Equal counts as above.
    fn above(self, threshold: Millivolts) -> bool
        ensures { result ≡ above threshold.0 self.0 }
    {
        threshold <= self
    }
}

impl MdacCode {
    fn of(measure: u8) -> MdacCode
        ensures { (result.0 ≡ bit_and measure MDAC) × (result.0 ≤ 63) }
    {
        MdacCode(measure & MDAC)
    }

    // The reference, in steps for a CC pin or for VBUS.
    fn reference(self, step: Millivolts) -> Millivolts
        requires { (self.0 ≤ 63) × (step.0 ≤ 420) }
        ensures { result.0 ≡ step.0 * (self.0 + 1) }
    {
        Millivolts(step.0 * (u16::from(self.0) + 1))
    }
}

// How many of BC_LVL's thresholds a voltage is above; `as`, since there are three.
fn steps(voltage: Millivolts) -> u8
    ensures { (result ≡ steps levels voltage.0) × (result ≤ 3) }
{
    LEVELS.iter().filter(|level| voltage.above(**level)).count() as u8
}

impl Readings {
    ghost use Rattle.fusb302.specs.Sensed.{shown_as};

    // The interrupts of what differs.
    #[tactic(auto, using(crate::proofs::Sensing::differ_is), unfolding(machine::specs::Status::changes))]
    fn changes(self, now: Readings) -> u8
        ensures { result ≡ changes (shown_as self) (shown_as now) }
    {
        flag(I_VBUSOK, self.vbus_ok != now.vbus_ok)
            + flag(I_COMP_CHNG, self.comp != now.comp)
            + flag(I_BC_LVL, self.bc_lvl != now.bc_lvl)
    }
}

impl Device {
    ghost use Rattle.fusb302.specs.Sensed.{pins_of, measured_as, shown_as};
    ghost use Rattle.fusb302.specs.View.{view, Asks};
    ghost use Rattle.fusb302.specs.Serves.{Becomes, Serves};

    // The voltage of the CC pin that is measured, by exactly one MEAS_CC.
    #[tactic(auto, unfolding(machine::specs::Pins::one_pin, machine::specs::Registers::cell))]
    fn one_pin(self) -> Option<Millivolts>
        ensures { measured_as result ≡ measured (reg switches0 (view self)) (pins_of self.pins) }
    {
        let switches0 = self.cells[SWITCHES0];
        match (has(MEAS_CC1, switches0), has(MEAS_CC2, switches0)) {
            (true, false) => Some(self.pins.cc1),
            (false, true) => Some(self.pins.cc2),
            _ => None,
        }
    }

    #[tactic(auto, unfolding(machine::specs::Pins::bc_lvl_of, machine::specs::Pins::readings, machine::specs::Registers::cell))]
    fn bc_lvl(self) -> u8
        ensures { (result ≡ (readings (view self)).bc_lvl) × (result ≤ 3) }
    {
        if !has(PWR2, self.cells[POWER]) {
            return 0;
        }
        self.one_pin().map_or(0, steps)
    }

    #[tactic(auto, unfolding(machine::specs::Pins::comp_of, machine::specs::Pins::readings, machine::specs::Registers::cell))]
    fn comp(self) -> bool
        ensures { result ≡ (readings (view self)).comp }
    {
        let switches0 = self.cells[SWITCHES0];
        let measure = self.cells[MEASURE];
        if !has(PWR2, self.cells[POWER]) {
            return false;
        }
        if has(MEAS_VBUS, measure) {
            // VBUS is compared where both MEAS_CC leave it alone.
            let reference = MdacCode::of(measure).reference(MDAC_STEP_VBUS);
            return !has(MEAS_CC1, switches0)
                && !has(MEAS_CC2, switches0)
                && self.pins.vbus.above(reference);
        }
        let reference = MdacCode::of(measure).reference(MDAC_STEP_CC);
        self.one_pin()
            .is_some_and(|voltage| voltage.above(reference))
    }

    // What the comparators show.
    #[tactic(auto, unfolding(machine::specs::Pins::readings))]
    pub(crate) fn readings(self) -> Readings
        ensures { shown_as result ≡ readings (view self) }
    {
        Readings {
            vbus_ok: self.pins.vbus.above(VBUS_THRESHOLD),
            comp: self.comp(),
            bc_lvl: self.bc_lvl(),
        }
    }

    // Sets the interrupts of what the comparators now show otherwise.
    pub(crate) fn reports(self, before: Readings) -> Device
        ensures { Becomes (raises (changes (shown_as before) (readings (view self))) (view self)) result }
    {
        self.raises(before.changes(self.readings()))
    }

    // Gives the voltages on CC1, CC2 and VBUS. Three voltages and no `Pins`: `Serves (sense room cc1 cc2 vbus)`.
    #[tactic(auto, using(crate::proofs::Sensing::sense_small))]
    pub fn sense(
        mut self,
        cc1: Millivolts,
        cc2: Millivolts,
        vbus: Millivolts,
        symbols: &mut [u8],
    ) -> Outcome
        requires { Asks self }
        ensures { Serves (sense (length symbols.old) cc1.0 cc2.0 vbus.0) self symbols.old result symbols.new }
    {
        if symbols.len() < FRAME_ROOM {
            return self.refuse(No::SmallBuffer);
        }
        let before = self.readings();
        self.pins = Pins { cc1, cc2, vbus };
        self.reports(before).done(0)
    }
}
