// A line of the bench's input, whole: parsed, done by the device, and what there is to tell of it printed.
#![tactic(auto)]

ghost use Rattle.std.specs.Prelude.{◌≡◌, false, true, ◌≤◌, length};
ghost use Rattle.text.specs.Put.{has_room};
ghost use Rattle.text.specs.Page.{SameOctets};
ghost use Rattle.fusb302.specs.View.{view, Asks};
ghost use Rattle.fusb302.specs.Serves.{replied, Serves};
ghost use Rattle.script.specs.Parse.{Parses};
ghost use Rattle.script.specs.Print.{bench_line_room};
ghost use Rattle.turn.specs.Turn.{meant_by, event_for, heard_of, Telling, outcomes, reasons, TellsReason, TellsOutcome, ActsTelling, TakesLine, TakesLineTelling};

use fusb302::{Device, Millivolts, Outcome, Reply};
use line::write::FRAME_ROOM;
use script::parse::{Line, PACKET_ROOM, parse_event, parse_setup};
use script::print::{BENCH_LINE_ROOM, print_bad, print_outcome, print_why};
use text::Page;

// A parsed line and the octets beside it, of which a packet's are the first.
#[derive(Clone, Copy)]
pub struct Given<'a> {
    pub line: Line,
    pub octets: &'a [u8],
    pub ghost heard: { heard_of line ≤ length octets.now },
}

// What a program tells of each line: its outcome (01, 'On the bench table'), or of a packet why it gets no GoodCRC (02, A5).
// `Asks` is a clause here and below, as in fusb302 (device.rt): it is what the device's methods ask. `SameOctets`: text/src/page.rt.
pub trait Tells {
    ghost telling: { Telling };

    // What is told before the event, since the device is asked as it stands; it is lent, since a copy of it is made only where it is asked.
    fn tell_reason(&self, device: &Device, given: Given, number: u32, page: &mut Page)
        requires { Asks device.now }
        ensures same_octets { SameOctets page.old page.new }
        ensures tells { TellsReason telling (view device.now) (Some (event_for given.entry.line given.entry.octets.now)) number page.old.octets.now page.old.at page.new.at page.new.octets.now };

    // What is told after it. Reply, level and symbols go one by one: `TellsOutcome`.
    fn tell_outcome(&self, reply: Reply, high: bool, symbols: &[u8], page: &mut Page)
        ensures same_octets { SameOctets page.old page.new }
        ensures tells { TellsOutcome telling (replied reply) high symbols.now page.old.octets.now page.old.at page.new.at page.new.octets.now };
}

// What the bench tells.
#[derive(Clone, Copy)]
pub struct Outcomes;

// What `why` tells.
#[derive(Clone, Copy)]
pub struct Reasons;

impl Tells for Outcomes {
    ghost telling = { outcomes };

    fn tell_reason(&self, _device: &Device, _given: Given, _number: u32, _page: &mut Page) {}

    fn tell_outcome(&self, reply: Reply, high: bool, symbols: &[u8], page: &mut Page) {
        print_outcome(reply, high, symbols, page);
    }
}

impl Tells for Reasons {
    ghost telling = { reasons };

    fn tell_reason(&self, device: &Device, given: Given, number: u32, page: &mut Page) {
        if let Line::Packet { kind, count } = given.line {
            print_why(number, device.why(kind, &given.octets[..count]), page);
        }
    }

    fn tell_outcome(&self, _reply: Reply, _high: bool, _symbols: &[u8], _page: &mut Page) {}
}

// After a line: the device, and whether the run ends there; no value depends on the flag, since the device stands either way (`TurnsTelling`).
#[derive(Clone, Copy)]
pub struct After {
    pub device: Device,
    pub ends: bool,
}

// Which of two parsers is a bool and no closure: `meant_by` takes it, in the contracts of `tell` and `turn`.
#[tactic(auto, using(crate::proofs::Turning::setup_parses))]
fn parsed(setup: bool, line: &[u8], octets: &mut [u8; PACKET_ROOM]) -> Option<Line>
    ensures { Parses (meant_by setup line.now) octets.old result octets.new }
{
    if setup {
        return parse_setup(line);
    }
    parse_event(line, octets)
}

// The event of a parsed line. Device and line go one by one: the device goes on alone.
fn serve(device: Device, given: Given, symbols: &mut [u8; FRAME_ROOM]) -> Outcome
    requires { Asks device }
    ensures { Serves (event_for given.entry.line given.entry.octets.now) device symbols.old result symbols.new }
{
    match given.line {
        Line::Write(address, value) => device.write(address, value, symbols),
        Line::Read(address) => device.read(address, symbols),
        Line::Time(microseconds) => device.pass(microseconds, symbols),
        Line::HardReset => device.hear_hard_reset(symbols),
        Line::Packet { kind, count } => device.hear_packet(kind, &given.octets[..count], symbols),
        Line::Sense(cc1, cc2, vbus) => {
            device.sense(Millivolts(cc1), Millivolts(cc2), Millivolts(vbus), symbols)
        }
    }
}

// What a parsed line does: the device's step, and what there is to tell of it. Room is a clause and no type: the text takes of it.
fn act<T: Tells>(
    tells: &T,
    device: Device,
    given: Given,
    number: u32,
    symbols: &mut [u8; FRAME_ROOM],
    page: &mut Page,
) -> Device
    requires { Asks device × (has_room bench_line_room page.old.octets.now page.old.at ≡ true) }
    ensures same_octets { SameOctets page.old page.new }
    ensures acts { ActsTelling T.telling device (Some (event_for given.entry.line given.entry.octets.now)) number symbols.old page.old.octets.now page.old.at (record { device = result; ends = false; at = page.new.at }) symbols.new page.new.octets.now }
{
    tells.tell_reason(&device, given, number, page);
    let outcome = serve(device, given, symbols);
    let after = outcome.device;
    let sent = &symbols[..outcome.count];
    tells.tell_outcome(outcome.reply, after.int_n(), sent, page);
    after
}

// Takes a line of the setup, or of the events, and tells of it; one out of form ends the run. Where a line of text need not fit on the
// page, it takes none and the run ends.
// What is lent goes one by one, as `TakesLine` promises of whatever is lent: a struct that owned it would ask more of callers.
pub fn tell<T: Tells>(
    tells: &T,
    device: Device,
    setup: bool,
    line: &[u8],
    number: u32,
    octets: &mut [u8; PACKET_ROOM],
    symbols: &mut [u8; FRAME_ROOM],
    page: &mut Page,
) -> After
    requires { Asks device }
    ensures same_octets { SameOctets page.old page.new }
    ensures takes { TakesLineTelling (has_room bench_line_room page.old.octets.now page.old.at) T.telling device (meant_by setup line.now) number (record { out = page.old.octets.now; octets = octets.old; symbols = symbols.old }) page.old.at (record { device = result.device; ends = result.ends; at = page.new.at }) (record { out = page.new.octets.now; octets = octets.new; symbols = symbols.new }) }
{
    if !page.has_room(BENCH_LINE_ROOM) {
        return After { device, ends: true };
    }
    let Some(line) = parsed(setup, line, octets) else {
        print_bad(number, page);
        return After { device, ends: true };
    };
    let given = Given { line, octets };
    After {
        device: act(tells, device, given, number, symbols, page),
        ends: false,
    }
}

// `tell` of what the bench tells, under the name of the bench's own promise, `TakesLine`.
pub fn turn(
    device: Device,
    setup: bool,
    line: &[u8],
    number: u32,
    octets: &mut [u8; PACKET_ROOM],
    symbols: &mut [u8; FRAME_ROOM],
    page: &mut Page,
) -> After
    requires { Asks device }
    ensures same_octets { SameOctets page.old page.new }
    ensures takes { TakesLine (has_room bench_line_room page.old.octets.now page.old.at) device (meant_by setup line.now) number (record { out = page.old.octets.now; octets = octets.old; symbols = symbols.old }) page.old.at (record { device = result.device; ends = result.ends; at = page.new.at }) (record { out = page.new.octets.now; octets = octets.new; symbols = symbols.new }) }
{
    tell(
        &Outcomes, device, setup, line, number, octets, symbols, page,
    )
}
