// The open request: its start, its waits and retries, and how it ends (01, 'The transmit queue').
ghost use Rattle.std.specs.Prelude.{length};
ghost use Rattle.machine.specs.Requests.{flight_in, start, message_fails, soft_fails, expires};
ghost use Rattle.machine.specs.Events.{pass, hard_reset};
ghost use Rattle.fusb302.specs.Queued.{queued};
ghost use Rattle.fusb302.specs.View.{phase_of, asked, view, Asks};
ghost use Rattle.fusb302.specs.Serves.{if_any, Sends, Does, Serves};

use crate::bits::{
    AUTO_HARDRESET, AUTO_SOFTRESET, CONTROL3, HARDRST, I_HARDRST, I_HARDSENT, I_RETRYFAIL,
    I_SOFTFAIL, RETRYFAIL, SOFTFAIL, SWITCHES1, has, retries_of,
};
use crate::device::{Device, Outcome, Request};
use crate::header::{Control, ControlMessage};
use crate::refusals::No;
use crate::send::{put, put_control, put_message};
use line::kind::{Kind, SopKind};
use line::write::FRAME_ROOM;

// Microseconds: how long a frame waits for its GoodCRC, and the most that pass in one event (01, 'Start', 10).
const WAIT: u32 = 1000;

const LONGEST_PASS: u32 = 1000;

impl Request {
    ghost use Rattle.std.specs.Prelude.{◌≡◌};
    ghost use Rattle.line.specs.Numbered.{sop_number};
    ghost use Rattle.machine.specs.Requests.{soft_reset_of};
    ghost use Rattle.fusb302.specs.Messages.{frame_of};

    // The Soft_Reset that follows where its message failed, on that message's kind (02, A2).
    fn soft_reset(self, kind: SopKind) -> Control
        ensures { frame_of result ≡ soft_reset_of (sop_number kind) (asked self) }
    {
        Control {
            message: ControlMessage::SoftReset,
            kind,
            switches1: self.switches1,
            id: 0,
        }
    }
}

impl Device {
    // ---- start

    // Opens a request for the message that the queue spells, and sends it.
    pub(crate) fn begin(self, frame: &mut [u8; FRAME_ROOM]) -> Outcome
        ensures { Does (start (view self)) frame.old result frame.new }
    {
        let request = Request {
            switches1: self.cells[SWITCHES1],
            retries: retries_of(self.cells[CONTROL3]),
            soft: has(AUTO_SOFTRESET, self.cells[CONTROL3]),
            hard: has(AUTO_HARDRESET, self.cells[CONTROL3]),
            resetting: None,
            sent: 0,
            waited: 0,
        };
        let count = put_message(self.tx, frame);
        self.hides_fails().requests(request).done(count)
    }

    // ---- time

    // What the request sends and sends again.
    #[tactic(auto, unfolding(machine::specs::Requests::flight_in))]
    fn put_flight(self, request: Request, frame: &mut [u8; FRAME_ROOM]) -> usize
        ensures { Sends (if_any (flight_in (phase_of request.resetting) (asked request) (queued self.tx))) frame.old result frame.new }
    {
        match request.resetting {
            Some(kind) => put_control(request.soft_reset(kind), frame),
            None => put_message(self.tx, frame),
        }
    }

    // The Soft_Reset failed: a Hard Reset follows if that was latched.
    fn soft_fails(self, request: Request, frame: &mut [u8; FRAME_ROOM]) -> Outcome
        ensures { Does (soft_fails (asked request) (view self)) frame.old result frame.new }
    {
        let failed = self.over().shows(SOFTFAIL).raises_a(I_SOFTFAIL);
        if request.hard {
            let count = put(Kind::HardReset, b"", frame);
            return failed.raises_a(I_HARDSENT).done(count);
        }
        failed.done(0)
    }

    // The message failed: a Soft_Reset follows on its kind, if that was latched (02, A2).
    fn message_fails(self, mut request: Request, frame: &mut [u8; FRAME_ROOM]) -> Outcome
        ensures { Does (message_fails request.waited (asked request) (view self)) frame.old result frame.new }
    {
        let failed = self.over().shows(RETRYFAIL).raises_a(I_RETRYFAIL);
        if !request.soft {
            return failed.done(0);
        }
        let Some(message) = self.tx.message() else {
            return failed.done(0);
        };
        let count = put_control(request.soft_reset(message.kind), frame);
        request.resetting = Some(message.kind);
        request.sent = 0;
        failed.requests(request).done(count)
    }

    // A wait ran out: what was in flight is sent again, or fails. `request.waited` already counts the wait that follows.
    fn expire(self, mut request: Request, frame: &mut [u8; FRAME_ROOM]) -> Outcome
        ensures { Does (expires request.waited (asked request) (view self)) frame.old result frame.new }
    {
        if request.sent < request.retries {
            let count = self.put_flight(request, frame);
            request.sent += 1;
            return self.requests(request).done(count);
        }
        match request.resetting {
            Some(_) => self.soft_fails(request, frame),
            None => self.message_fails(request, frame),
        }
    }

    // Lets time pass.
    #[tactic(auto, using(crate::proofs::Waiting::pass_small, crate::proofs::Waiting::pass_long, crate::proofs::Waiting::pass_idle, crate::proofs::Waiting::pass_waits))]
    pub fn pass(mut self, microseconds: u32, symbols: &mut [u8]) -> Outcome
        requires { Asks self }
        ensures { Serves (pass (length symbols.old) microseconds) self symbols.old result symbols.new }
    {
        let Some(frame) = symbols.first_chunk_mut::<FRAME_ROOM>() else {
            return self.refuse(No::SmallBuffer);
        };
        if LONGEST_PASS < microseconds {
            return self.refuse(No::TimeTooLong);
        }
        let Some(mut request) = self.request else {
            return self.done(0);
        };
        let waited = u32::from(request.waited) + microseconds;
        if waited < WAIT {
            // `as`, since the value fits: `try_from` would add an `unwrap`.
            request.waited = waited as u16;
            return self.requests(request).done(0);
        }
        request.waited = (waited - WAIT) as u16;
        self.expire(request, frame)
    }

    // ---- a Hard Reset heard

    pub fn hear_hard_reset(mut self, symbols: &mut [u8]) -> Outcome
        requires { Asks self }
        ensures { Serves (hard_reset (length symbols.old)) self symbols.old result symbols.new }
    {
        if symbols.len() < FRAME_ROOM {
            return self.refuse(No::SmallBuffer);
        }
        self.over().shows(HARDRST).raises_a(I_HARDRST).done(0)
    }
}
