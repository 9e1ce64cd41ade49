// A program's standard input and output, in bounded memory: what is read and not yet taken, what is printed and not yet written.
//
// Proved is what each function leaves in memory; what a read or a write does outside is only run.
#![tactic(auto)]

ghost use Rattle.std.specs.Prelude.{◌≡◌};
ghost use Rattle.text.specs.Put.{has_room};
ghost use Rattle.stream.specs.Ready.{octet_waits};
ghost use Rattle.stream.specs.Promises.{flushed, BeginsFresh, ReadsMore, WritesOut, MakesRoom, Fills, StepsTo};

use std::io::{Print, Read, Stdin, Stdout};
use text::page::has_room;

mod console;

pub use console::Console;

// The octets of either buffer, of what is read and of what is printed.
pub(crate) const BUFFER_ROOM: usize = 65536;

// What was read and not yet taken: the octets from at to end of the buffer.
// Two numbers and no Range: a Range is not Copy, and an input and a stream are; `octet_waits` and `InBuffer` name both ends.
#[derive(Clone, Copy)]
pub struct Input {
    pub at: usize,
    pub end: usize,
}

impl Input {
    // As it stands if an octet is there to take (`ReadsMore`); else what one read gives, which is none at its end or where reading fails.
    fn more(&mut self, mut stdin: Stdin, buf: &mut [u8; BUFFER_ROOM])
        ensures { ReadsMore (octet_waits self.old) self.old buf.old self.new buf.new }
    {
        if self.at < self.end {
            return;
        }
        let got = stdin.read(buf);
        *self = Input {
            at: 0,
            end: got.unwrap_or(0),
        };
    }
}

// What is to be taken, how much is printed and not yet written, and whether the run goes on.
// `on` is a bool, since the other two stand in a run that has ended too, whose last octets are still to be written.
#[derive(Clone, Copy)]
pub struct Stream {
    pub input: Input,
    pub used: usize,
    pub on: bool,
}

// Handles and buffers are lent one by one: `WritesOut`, `MakesRoom` and `Fills` promise for whatever slice is lent, and `Console` holds its own.
impl Stream {
    pub fn begin() -> Stream
        ensures { BeginsFresh result }
    {
        Stream {
            input: Input { at: 0, end: 0 },
            used: 0,
            on: true,
        }
    }

    // Behind a write: nothing counts as printed, and the run goes on if it did and the write went well.
    fn flush(&mut self, went: bool)
        ensures { self.new ≡ flushed self.old went }
    {
        self.used = 0;
        self.on = went && self.on;
    }

    // Writes what is printed. That the octets go out, and that the run ends where they do not, is only run: std promises nothing of a write.
    pub fn write_out(&mut self, stdout: Stdout, out: &[u8])
        ensures { WritesOut self.old self.new }
    {
        let used = self.used.min(out.len());
        let went = stdout.write_all(&out[..used]).is_ok();
        self.flush(went);
    }

    // As it stands if `need` more fit behind what is printed, else `write_out`.
    pub fn room(&mut self, stdout: Stdout, need: usize, out: &[u8])
        ensures { MakesRoom (has_room need out.now self.old.used) self.old self.new }
    {
        if has_room(need, out.len(), self.used) {
            return;
        }
        self.write_out(stdout, out);
    }

    // As it stands if an octet is there to take; else `write_out` and, where the run goes on, a read. That the write is first is only run.
    pub fn fill(&mut self, stdin: Stdin, stdout: Stdout, buf: &mut [u8; BUFFER_ROOM], out: &[u8])
        ensures { Fills (octet_waits self.old.input) self.old buf.old self.new buf.new }
    {
        if self.input.at < self.input.end {
            return;
        }
        self.write_out(stdout, out);
        if self.on {
            self.input.more(stdin, buf);
        }
    }

    // After a step that left this input, printed up to `used`, and perhaps ends the run.
    pub fn stepped(&mut self, input: Input, used: usize, ends: bool)
        ensures { StepsTo self.old input used ends self.new }
    {
        *self = Stream {
            input,
            used,
            on: !ends && self.on,
        };
    }
}
