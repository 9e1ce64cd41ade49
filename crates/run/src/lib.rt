// A run (01, 'On the bench table'): standard input to standard output, line by line, in bounded memory.
#![tactic(auto)]

ghost use Rattle.std.specs.Prelude.{◌≡◌, true, Some, ◌+◌, ◌≤◌, ◌<◌, take};
ghost use Rattle.fusb302.specs.View.{view, Asks};
ghost use Rattle.machine.specs.Step.{step};
ghost use Rattle.turn.specs.Turn.{meant_by};

use fusb302::Device;
use line::write::FRAME_ROOM;
use script::parse::{PACKET_ROOM, decimal};
use script::print::{BENCH_LINE_ROOM, print_bad};
use std::io::{Stdin, Stdout};
use stream::Console;
use text::Page;
use turn::{Tells, tell};

// The longest line that is taken whole, and one octet more.
const LINE_ROOM: usize = 256;

// Between lines: the console, the number of the last line, room for a line, and what the device is lent.
// The device is no field: copied out and back at each event it costs 0.150 s a million where it takes 0.142 s, and each method would need a clause that it leaves the device.
// A line is an array with its length given by `next_line`, since no crate here has a heap.
// Pages of the console are made here, and by no method of it: stream/src/console.rt.
#[derive(Drop)]
struct Bench {
    console: Console,
    number: u32,
    line: [u8; LINE_ROOM],
    octets: [u8; PACKET_ROOM],
    symbols: [u8; FRAME_ROOM],
}

impl Bench {
    // The next line without its LF, by its length; 256 octets of one that is longer than 255. At the end of the input it is what is left.
    // Before more is read, what is printed is handed over to be written, so that whoever waits for an answer has it (only run: see `fill`).
    // Inlined at both calls: as a function of its own it costs 18 instructions more of some 690 a line.
    #[inline(always)]
    fn next_line(&mut self) -> usize
        ensures line { result ≤ LINE_ROOM }
        ensures number { self.new.number ≡ self.old.number }
    {
        let mut count = 0;
        // A `while`, since how many octets a read gives is not known before.
        while count < LINE_ROOM {
            self.console.fill();
            let waiting = self.console.waiting();
            if waiting.is_empty() {
                return count;
            }
            let piece = &waiting[..waiting.len().min(LINE_ROOM - count)];
            let end = piece.iter().position(|octet| *octet == b'\n');
            let text = &piece[..end.unwrap_or(piece.len())];
            let next = count + text.len();
            let taken = text.len() + usize::from(end.is_some());
            self.line[count..next].copy_from_slice(text);
            self.console.take(taken);
            count = next;
            if end.is_some() {
                return count;
            }
        }
        count
    }

    // A count that is missing or out of form ends the run. Where output failed the run has ended, and nothing more is printed.
    fn bad(&mut self)
        ensures { self.new.number ≡ self.old.number }
    {
        if !self.console.stream.on {
            return;
        }
        self.console.room(BENCH_LINE_ROOM);
        let mut page = Page {
            octets: &mut self.console.out,
            at: self.console.stream.used,
        };
        print_bad(self.number, &mut page);
        let used = page.at;
        self.console.stepped(used, true);
    }

    // One line of the setup, or of the events: a bool, as `meant_by` takes it. Where the run goes on, some beginning of what is held of a line was in form, and the device went its step; that it is the whole line, and the next of the input, is only run. `Asks` is a clause, as in fusb302 (device.rt).
    #[tactic(auto, using(turn::proofs::Turning::tell_asks, turn::proofs::Turning::tell_within))]
    fn one<T: Tells>(&mut self, tells: &T, setup: bool, device: Device) -> Device
        requires asks { Asks device }
        requires number { self.old.number < 30000000 }
        ensures asks { Asks result }
        ensures number { self.new.number ≡ self.old.number + 1 }
        ensures takes { self.new.console.stream.on ≡ true → (n : _) × (e : _) × (meant_by setup (take n self.new.line) ≡ Some e) × (view result ≡ (step (view device) e).state) }
    {
        let length = self.next_line();
        self.number += 1;
        self.console.room(BENCH_LINE_ROOM);
        let mut page = Page {
            octets: &mut self.console.out,
            at: self.console.stream.used,
        };
        let after = tell(
            tells,
            device,
            setup,
            &self.line[..length],
            self.number,
            &mut self.octets,
            &mut self.symbols,
            &mut page,
        );
        // Where output failed the run has ended, and the line may be cut.
        let used = if self.console.stream.on { page.at } else { 0 };
        self.console.stepped(used, after.ends);
        after.device
    }

    // A count and its lines, of the setup or of the events.
    fn part<T: Tells>(&mut self, tells: &T, setup: bool, mut device: Device) -> Device
        requires asks { Asks device }
        requires number { self.old.number ≤ 10000000 }
        ensures asks { Asks result }
        ensures number { self.new.number ≤ self.old.number + 10000000 }
    {
        let length = self.next_line();
        self.number += 1;
        match decimal(&self.line[..length]) {
            Some(count) => {
                for _ in 0..count {
                    device = self.one(tells, setup, device);
                    if !self.console.stream.on {
                        return device;
                    }
                }
            }
            None => self.bad(),
        }
        device
    }
}

// Takes standard input and tells of it on standard output. No device is lent and nothing is given back; what is read and written is
// only run.
pub fn run<T: Tells>(stdin: Stdin, stdout: Stdout, tells: &T) {
    let mut bench = Bench {
        console: Console::new(stdin, stdout),
        number: 0,
        line: [0; LINE_ROOM],
        octets: [0; PACKET_ROOM],
        symbols: [0; FRAME_ROOM],
    };
    let device = bench.part(tells, true, Device::power_up());
    if bench.console.stream.on {
        bench.part(tells, false, device);
    }
    bench.console.write_out();
}
