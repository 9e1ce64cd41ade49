// The device: registers, both FIFOs, interrupts, the request that is open, and the voltages on its pins.
ghost use Rattle.std.specs.Prelude.{◌≡◌, ◌<◌, Some, None, Ok, Err, length};
ghost use Rattle.std.proofs.Math.Option.{some};
ghost use Rattle.machine.specs.Registers.{resets};
ghost use Rattle.machine.specs.Status.{cleared_at};
ghost use Rattle.machine.specs.State.{cleared, with_request, shows, hides, raises_a, raises_b, raises};
ghost use Rattle.machine.specs.Requests.{fail_bits, over};

use crate::bits::{RETRYFAIL, SOFTFAIL};
use crate::fifo::Fifo;
use crate::pins::Pins;
use crate::queue::Queue;
use crate::refusals::No;
use line::kind::SopKind;

#[derive(Clone, Copy, Default)]
pub struct Status {
    pub(crate) status0a: u8,
    pub(crate) crc_chk: bool,
    pub(crate) kind: Option<SopKind>,
}

#[derive(Clone, Copy, Default)]
pub struct Ints {
    pub(crate) a: u8,
    pub(crate) b: u8,
    pub(crate) main: u8,
}

// An open request: what its start latched, the kind that its Soft_Reset is in flight on, if it is, and how far it has come.
#[derive(Clone, Copy)]
pub struct Request {
    pub(crate) switches1: u8,
    pub(crate) retries: u8,
    pub(crate) soft: bool,
    pub(crate) hard: bool,
    pub(crate) resetting: Option<SopKind>,
    pub(crate) sent: u8,
    pub(crate) waited: u16,
}

// `Good` is no ghost field: between two steps of one event it need not hold. Methods ask for `Asks`, and thm `EveryCallAllowed` (lives) says that the device of every life meets it.
#[derive(Clone, Copy)]
pub struct Device {
    pub(crate) cells: [u8; Device::REGISTERS.len()],
    pub(crate) tx: Queue,
    pub(crate) rx: Fifo,
    pub(crate) status: Status,
    pub(crate) ints: Ints,
    pub(crate) request: Option<Request>,
    pub(crate) pins: Pins,
    ghost registers: { length cells ≡ 15 },
}

// A register that is stored, by its place among the cells.
#[derive(Clone, Copy)]
pub(crate) struct Cell {
    pub(crate) at: usize,
    ghost among: { at < 15 },
}

// Nothing or the octet that was read; or why the event is refused. `N` may be any type of reasons or numbers: the device's own are `No`.
pub type Reply<N = No> = Result<Option<u8>, N>;

// What an event gives back: the device, its reply, and how many of the lent symbols it sent; a count, since `Serves` speaks of the lent ones, whole.
#[derive(Clone, Copy)]
pub struct Outcome {
    pub device: Device,
    pub reply: Reply,
    pub count: usize,
}

impl Status {
    ghost use Rattle.fusb302.specs.View.{status_of};

    pub(crate) fn cleared() -> Status
        ensures { status_of result ≡ cleared }
    {
        Status::default()
    }
}

impl Ints {
    ghost use Rattle.fusb302.specs.View.{ints_of};

    // By the address, as `shown` (reads.rt): `cleared_at` takes it.
    #[tactic(auto, unfolding(machine::specs::Status::cleared_at))]
    pub(crate) fn cleared(mut self, address: u8) -> Ints
        ensures { ints_of result ≡ cleared_at address (ints_of self) }
    {
        match address {
            0x3E => self.a = 0,
            0x3F => self.b = 0,
            0x42 => self.main = 0,
            _ => (),
        }
        self
    }
}

impl Device {
    ghost use Rattle.fusb302.specs.View.{asked, view, PoweredUp};
    ghost use Rattle.fusb302.specs.Serves.{Becomes};

    // 01, 'Registers': of 02 to 10 the reset value and the bits that are stored.
    pub(crate) const REGISTERS: [(u8, u8); 15] = [
        (0x03, 0xFF), // Switches0
        (0x20, 0xF7), // Switches1
        (0x31, 0x7F), // Measure
        (0x60, 0xFF), // Slice
        (0x24, 0x2E), // Control0
        (0x00, 0x73), // Control1
        (0x02, 0xEF), // Control2
        (0x06, 0x3F), // Control3
        (0x00, 0xFF), // Mask
        (0x01, 0x0F), // Power
        (0x00, 0x00), // Reset
        (0x0F, 0x0F), // OCPreg
        (0x00, 0xFF), // Maska
        (0x00, 0x01), // Maskb
        (0x00, 0x01), // Control4
    ];

    fn resets() -> [u8; Device::REGISTERS.len()]
        ensures { result ≡ resets }
    {
        Device::REGISTERS.map(|(reset, _)| reset)
    }

    #[tactic(auto, using(machine::proofs::Keeping::power_up_good))]
    pub fn power_up() -> Device
        ensures { PoweredUp result }
    {
        Device {
            cells: Device::resets(),
            tx: Queue::empty(),
            rx: Fifo::empty(),
            status: Status::cleared(),
            ints: Ints::default(),
            request: None,
            pins: Pins::default(),
        }
    }

    // ---- outcomes

    pub(crate) fn refuse(self, no: No) -> Outcome
        ensures { result ≡ record { device = self; reply = Err no; count = 0 } }
    {
        Outcome {
            device: self,
            reply: Err(no),
            count: 0,
        }
    }

    pub(crate) fn give(self, octet: u8) -> Outcome
        ensures { result ≡ record { device = self; reply = Ok (Some octet); count = 0 } }
    {
        Outcome {
            device: self,
            reply: Ok(Some(octet)),
            count: 0,
        }
    }

    pub(crate) fn done(self, count: usize) -> Outcome
        ensures { result ≡ record { device = self; reply = Ok None; count = count } }
    {
        Outcome {
            device: self,
            reply: Ok(None),
            count,
        }
    }

    // ---- a part replaced, as the machine's State replaces it

    // No request is open, and the queue is empty.
    pub(crate) fn over(mut self) -> Device
        ensures { Becomes (over (view self)) result }
    {
        self.tx = Queue::empty();
        self.request = None;
        self
    }

    pub(crate) fn requests(mut self, request: Request) -> Device
        ensures { Becomes (with_request (some (asked request)) (view self)) result }
    {
        self.request = Some(request);
        self
    }

    // Bits set in 3C.
    pub(crate) fn shows(mut self, bits: u8) -> Device
        ensures { Becomes (shows bits (view self)) result }
    {
        self.status.status0a |= bits;
        self
    }

    // SOFTFAIL and RETRYFAIL cleared.
    pub(crate) fn hides_fails(mut self) -> Device
        ensures { Becomes (hides fail_bits (view self)) result }
    {
        self.status.status0a &= !(SOFTFAIL | RETRYFAIL);
        self
    }

    // `raises_a`, `raises_b` and `raises` are the machine's names in the contracts; one method with a closure that picks the register is longer.

    // Bits set in 3E, whatever masks say.
    pub(crate) fn raises_a(mut self, bits: u8) -> Device
        ensures { Becomes (raises_a bits (view self)) result }
    {
        self.ints.a |= bits;
        self
    }

    // Bits set in 3F.
    pub(crate) fn raises_b(mut self, bits: u8) -> Device
        ensures { Becomes (raises_b bits (view self)) result }
    {
        self.ints.b |= bits;
        self
    }

    // Bits set in 42.
    pub(crate) fn raises(mut self, bits: u8) -> Device
        ensures { Becomes (raises bits (view self)) result }
    {
        self.ints.main |= bits;
        self
    }
}
