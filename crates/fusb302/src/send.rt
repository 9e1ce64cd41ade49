// Frames put on the line: a message that the queue spells, one of a header alone, a Hard Reset.
ghost use Rattle.std.specs.Prelude.{◌≡◌, false, [], ◌∷◌, length};
ghost use Rattle.line.specs.Numbered.{kind_number};
ghost use Rattle.line.specs.Write.{wrong_length};
ghost use Rattle.machine.specs.Queue.{spelt};
ghost use Rattle.fusb302.specs.Queued.{queued};
ghost use Rattle.fusb302.specs.Messages.{frame_of};
ghost use Rattle.fusb302.specs.Serves.{if_any, Sends};

use crate::header::Control;
use crate::queue::Queue;
use line::kind::Kind;
use line::write::{FRAME_ROOM, write_frame};

// Writes a frame of as many octets as one of its kind has; the number of its symbols. `write_frame` takes any number (`Writes`), so a kind is given by its number.
pub(crate) fn put(kind: Kind, octets: &[u8], frame: &mut [u8; FRAME_ROOM]) -> usize
    requires { wrong_length (kind_number kind) (length octets.now) ≡ false }
    ensures { Sends (record { kind = kind_number kind; octets = octets.now } ∷ []) frame.old result frame.new }
{
    write_frame(u8::from(kind), octets, frame).unwrap()
}

// Writes a message that is a header alone.
#[tactic(auto, using(crate::proofs::Sending::fits_message, crate::proofs::Queueing::sop_below), unfolding(machine::specs::Headers::two_octets))]
pub(crate) fn put_control(control: Control, frame: &mut [u8; FRAME_ROOM]) -> usize
    ensures { Sends (frame_of control ∷ []) frame.old result frame.new }
{
    put(Kind::Message(control.kind), &control.octets(), frame)
}

// Writes the message that a queue spells, if it spells one.
#[tactic(auto, using(crate::proofs::Sending::by_answer, crate::proofs::Sending::fits_message, crate::proofs::Queueing::sop_below))]
pub(crate) fn put_message(tx: Queue, frame: &mut [u8; FRAME_ROOM]) -> usize
    ensures { Sends (if_any (spelt (queued tx))) frame.old result frame.new }
{
    let Some(message) = tx.message() else {
        return 0;
    };
    put(Kind::Message(message.kind), message.octets, frame)
}
