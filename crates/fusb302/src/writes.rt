// Writes: what refuses one, and what one does (01, 'Registers', 'The transmit queue', 'Numbers of no').
ghost use Rattle.std.specs.Prelude.{◌≡◌, true, false, not, ◌&&◌, ◌+◌, ◌<◌, leb, eqb, length, Ok};
ghost use Rattle.machine.specs.Status.{tx_room};
ghost use Rattle.machine.specs.Registers.{control0, control3, fifos, has, TX_FLUSH, TX_START};
ghost use Rattle.machine.specs.Queue.{START, is_message, is_token};
ghost use Rattle.machine.specs.Requests.{driver_on};
ghost use Rattle.machine.specs.Events.{write};
ghost use Rattle.machine.specs.Step.{restored, pd_reset, queues, control0_written, control1_written, control3_written, reset_written, port_written, written};
ghost use Rattle.fusb302.specs.Queued.{queued};
ghost use Rattle.fusb302.specs.View.{view, Asks};
ghost use Rattle.fusb302.specs.Serves.{Becomes, Does, DoesQuietly, Serves, WriteServed, Refuses, sending_no, start_no, storing_no};

use crate::bits::{
    CONTROL0, CONTROL1, CONTROL3, I_ALERT, I_HARDSENT, PD_RESET, Place, RESET, RX_FLUSH,
    SEND_HARD_RESET, SW_RES, SWITCHES1, TX_FLUSH, TX_START, driver_on, has, place_of, stored_bits,
};
use crate::device::{Cell, Device, Outcome, Status};
use crate::fifo::Fifo;
use crate::queue::{Queue, START, is_token};
use crate::refusals::No;
use crate::send::put;
use line::kind::Kind;
use line::write::FRAME_ROOM;

// Whether an octet at the port starts a request: A1 where it is not data.
fn is_start(left: u8, octet: u8) -> bool
    ensures { result ≡ (eqb left 0 && eqb octet START) }
{
    left == 0 && octet == START
}

// Whether an octet at the port is out of place: no token where it is not data.
fn is_stray(left: u8, octet: u8) -> bool
    ensures { result ≡ (eqb left 0 && not (is_token octet)) }
{
    left == 0 && !is_token(octet)
}

// What is sent needs the driver.
fn may_send(switches1: u8) -> Result<(), No>
    ensures { result ≡ sending_no (driver_on switches1) }
{
    if driver_on(switches1) {
        return Ok(());
    }
    Err(No::DriverOff)
}

fn may_start(tx: Queue, switches1: u8) -> Result<(), No>
    ensures { result ≡ start_no (is_message (queued tx)) (driver_on switches1) }
{
    tx.message().ok_or(No::NotAMessage)?;
    may_send(switches1)
}

fn may_store(held: usize) -> Result<(), No>
    ensures { result ≡ storing_no (leb tx_room held) }
{
    if held < Queue::CAPACITY {
        return Ok(());
    }
    Err(No::QueueFull)
}

impl Device {
    // ---- what a write is refused for

    #[tactic(auto, using(crate::proofs::Refusing::port_busy, crate::proofs::Refusing::port_start_lem, crate::proofs::Refusing::port_bad, crate::proofs::Refusing::port_store))]
    fn may_write_port(self, octet: u8) -> Result<(), No>
        ensures { Refuses (view self) fifos octet result }
    {
        if self.request.is_some() {
            return Err(No::RequestOpen);
        }
        if is_start(self.tx.left, octet) {
            return may_start(self.tx, self.cells[SWITCHES1]);
        }
        if is_stray(self.tx.left, octet) {
            return Err(No::NotAToken);
        }
        may_store(self.tx.len)
    }

    #[tactic(auto, using(crate::proofs::Refusing::control0_quiet, crate::proofs::Refusing::control0_busy, crate::proofs::Refusing::control0_flush, crate::proofs::Refusing::control0_start))]
    fn may_write_control0(self, value: u8) -> Result<(), No>
        ensures { Refuses (view self) control0 value result }
    {
        if !has(TX_START, value) {
            return Ok(());
        }
        if self.request.is_some() {
            return Err(No::RequestOpen);
        }
        if has(TX_FLUSH, value) {
            return Err(No::NotAMessage);
        }
        may_start(self.tx, self.cells[SWITCHES1])
    }

    #[tactic(auto, using(crate::proofs::Refusing::control3_quiet, crate::proofs::Refusing::control3_sends))]
    fn may_write_control3(self, value: u8) -> Result<(), No>
        ensures { Refuses (view self) control3 value result }
    {
        if has(SEND_HARD_RESET, value) {
            return may_send(self.cells[SWITCHES1]);
        }
        Ok(())
    }

    #[tactic(auto, using(crate::proofs::Refusing::not_command))]
    fn may_write_register(self, cell: Cell, value: u8) -> Result<(), No>
        ensures { Refuses (view self) (cell.at + 2) value result }
    {
        match cell.at {
            CONTROL0 => self.may_write_control0(value),
            CONTROL3 => self.may_write_control3(value),
            _ => Ok(()),
        }
    }

    // ---- what a write does

    // An octet goes to the queue, which it may make full.
    #[tactic(auto, using(crate::proofs::Showing::queued_length), unfolding(machine::specs::Step::queues))]
    fn queue(mut self, octet: u8) -> Device
        requires { self.tx.len < tx_room }
        ensures { Becomes (queues octet (view self)) result }
    {
        self.tx = self.tx.push(octet);
        if self.tx.len == Queue::CAPACITY {
            return self.raises(I_ALERT);
        }
        self
    }

    #[tactic(auto, using(crate::proofs::Refusing::port_start_is, crate::proofs::Refusing::port_room), unfolding(machine::specs::Step::port_written, line::specs::Frame::joined))]
    fn port_written(self, octet: u8, frame: &mut [u8; FRAME_ROOM]) -> Outcome
        requires { Refuses (view self) fifos octet (Ok tt) }
        ensures { Does (port_written octet (view self)) frame.old result frame.new }
    {
        if !is_start(self.tx.left, octet) {
            return self.queue(octet).done(0);
        }
        self.begin(frame)
    }

    #[tactic(auto, unfolding(machine::specs::Step::control0_written, line::specs::Frame::joined))]
    fn control0_written(self, value: u8, frame: &mut [u8; FRAME_ROOM]) -> Outcome
        requires { has TX_START value ≡ true → has TX_FLUSH value ≡ false }
        ensures { Does (control0_written value (view self)) frame.old result frame.new }
    {
        if has(TX_START, value) {
            return self.begin(frame);
        }
        if has(TX_FLUSH, value) {
            return self.over().done(0);
        }
        self.done(0)
    }

    #[tactic(auto, unfolding(machine::specs::Step::control1_written))]
    fn control1_written(mut self, value: u8) -> Outcome
        ensures { DoesQuietly (control1_written value (view self)) result }
    {
        if has(RX_FLUSH, value) {
            self.rx = Fifo::empty();
        }
        self.done(0)
    }

    #[tactic(auto, using(crate::proofs::Sending::fits_reset), unfolding(machine::specs::Step::control3_written, machine::specs::Requests::send_hard_reset, line::specs::Frame::joined))]
    fn control3_written(self, value: u8, frame: &mut [u8; FRAME_ROOM]) -> Outcome
        ensures { Does (control3_written value (view self)) frame.old result frame.new }
    {
        if has(SEND_HARD_RESET, value) {
            let count = put(Kind::HardReset, b"", frame);
            return self.over().hides_fails().raises_a(I_HARDSENT).done(count);
        }
        self.done(0)
    }

    // Both FIFOs empty, no request, and the status cleared.
    #[tactic(auto, unfolding(machine::specs::Step::pd_reset))]
    fn pd_reset(self) -> Device
        ensures { Becomes (pd_reset (view self)) result }
    {
        let mut cleared = self.over();
        cleared.rx = Fifo::empty();
        cleared.status = Status::cleared();
        cleared
    }

    // As after power-up, but the voltages are what they are. No literal with `..`: Rattle refuses it for a struct with a ghost field.
    #[tactic(auto, unfolding(machine::specs::Step::restored))]
    fn restored(self) -> Device
        ensures { Becomes (restored (view self)) result }
    {
        let mut new = Device::power_up();
        new.pins = self.pins;
        new
    }

    #[tactic(auto, unfolding(machine::specs::Step::reset_written))]
    fn reset_written(self, value: u8) -> Outcome
        ensures { DoesQuietly (reset_written value (view self)) result }
    {
        if has(SW_RES, value) {
            return self.restored().done(0);
        }
        if has(PD_RESET, value) {
            return self.pd_reset().done(0);
        }
        self.done(0)
    }

    #[tactic(auto, using(crate::proofs::Refusing::no_flush, crate::proofs::Writing::is_control0, crate::proofs::Writing::is_control1, crate::proofs::Writing::is_control3, crate::proofs::Writing::is_reset, crate::proofs::Writing::is_plain), unfolding(line::specs::Frame::joined))]
    fn register_written(mut self, cell: Cell, value: u8, frame: &mut [u8; FRAME_ROOM]) -> Outcome
        requires { Refuses (view self) (cell.at + 2) value (Ok tt) }
        ensures { Does (written (cell.at + 2) value (view self)) frame.old result frame.new }
    {
        let before = self.readings();
        self.cells[cell.at] = value & stored_bits(cell);
        match cell.at {
            CONTROL0 => self.control0_written(value, frame),
            CONTROL1 => self.control1_written(value),
            CONTROL3 => self.control3_written(value, frame),
            RESET => self.reset_written(value),
            _ => self.reports(before).done(0),
        }
    }

    // ---- a write

    #[tactic(auto, using(crate::proofs::Writing::write_refused, crate::proofs::Writing::write_taken))]
    fn write_register(self, cell: Cell, value: u8, frame: &mut [u8; FRAME_ROOM]) -> Outcome
        requires { Asks self }
        ensures { WriteServed (cell.at + 2) value self frame.old result frame.new }
    {
        match self.may_write_register(cell, value) {
            Ok(()) => self.register_written(cell, value, frame),
            Err(no) => self.refuse(no),
        }
    }

    #[tactic(auto, using(crate::proofs::Writing::write_refused, crate::proofs::Writing::write_taken, machine::proofs::Comparing::port_written_lem))]
    fn write_port(self, octet: u8, frame: &mut [u8; FRAME_ROOM]) -> Outcome
        requires { Asks self }
        ensures { WriteServed fifos octet self frame.old result frame.new }
    {
        match self.may_write_port(octet) {
            Ok(()) => self.port_written(octet, frame),
            Err(no) => self.refuse(no),
        }
    }

    // Writes a register or the port.
    #[tactic(auto, using(crate::proofs::Writing::write_small, crate::proofs::Writing::write_nowhere, crate::proofs::Writing::write_read_only))]
    pub fn write(mut self, address: u8, value: u8, symbols: &mut [u8]) -> Outcome
        requires { Asks self }
        ensures { Serves (write (length symbols.old) address value) self symbols.old result symbols.new }
    {
        let Some(frame) = symbols.first_chunk_mut::<FRAME_ROOM>() else {
            return self.refuse(No::SmallBuffer);
        };
        let Some(place) = place_of(address) else {
            return self.refuse(No::NoSuchAddress);
        };
        match place {
            Place::Id | Place::Shown => self.refuse(No::ReadOnly),
            Place::Stored(cell) => self.write_register(cell, value, frame),
            Place::Port => self.write_port(value, frame),
        }
    }
}
