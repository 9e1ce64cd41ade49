// An outcome, or why there was no GoodCRC, to a line of output (01, 'On the bench table'; 02, A5).
// No `Display`: `PrintsOutcome`, `PrintsBad` and `PrintsWhy` promise the whole line where there is room, and else none of it (text/src/page.rt).
// Room is a clause and no type: a text takes of it, so that it holds where a function begins and not where it ends. `SameOctets`: text/src/page.rt.
// Reply, level and symbols go one by one: `PrintsOutcome` and `TellsOutcome` (turn) take each.
ghost use Rattle.std.specs.Prelude.{◌≡◌, ◌+◌, ◌≤◌, length};
ghost use Rattle.text.specs.Page.{PutsOn, SameOctets};
ghost use Rattle.line.specs.Write.{frame_room};
ghost use Rattle.script.specs.Print.{reply_text, level_of, outcome_text, bad_line_text, reason_text, why_text, bench_line_room, answered, named, Answers, Names, PrintsOutcome, PrintsBad, PrintsWhy};

use fusb302::{Reply, Why};
use line::write::FRAME_ROOM;
use text::Page;

// Room for any line: `no255`, a space and the level, 73 symbols, LF.
pub const BENCH_LINE_ROOM: usize = 227;

// As many digits as any line number has. One is widened by `as`: `usize` is no `From` of `u32`.
const LINE_DIGITS: usize = 10;

// A reply with its refusal by number: the number is the text, and any is printed.
fn answered<N: Into<u8>>(reply: Reply<N>) -> Reply<u8>
    ensures { Answers N.converts reply (answered result) }
{
    match reply {
        Ok(octet) => Ok(octet),
        Err(no) => Err(no.into()),
    }
}

// An answer of `why` with its refusal by number.
fn named<N: Into<u8>>(why: Why<N>) -> Why<u8>
    ensures { Names N.converts why (named result) }
{
    match why {
        Why::Refused(no) => Why::Refused(no.into()),
        Why::KindOff => Why::KindOff,
        Why::CrcWrong => Why::CrcWrong,
        Why::NoRoom => Why::NoRoom,
        Why::IsGoodCrc => Why::IsGoodCrc,
        Why::AutoCrcOff => Why::AutoCrcOff,
        Why::AutoPreOn => Why::AutoPreOn,
        Why::DriverOff => Why::DriverOff,
        Why::Leaves => Why::Leaves,
    }
}

// `ok`, `=vv`, `noN`.
fn put_reply(reply: Reply<u8>, page: &mut Page)
    requires { page.old.at + 5 ≤ length page.old.octets.now }
    ensures { PutsOn page.old (reply_text (answered reply)) page.new }
{
    match reply {
        Ok(None) => page.put_text(b"ok"),
        Ok(Some(v)) => {
            page.put(b'=');
            page.put_octet(v);
        }
        Err(number) => {
            page.put_text(b"no");
            page.put_decimal(usize::from(number), 3);
        }
    }
}

fn level(high: bool) -> u8
    ensures { result ≡ level_of high }
{
    if high { b'1' } else { b'0' }
}

fn put_outcome(reply: Reply<u8>, high: bool, symbols: &[u8], page: &mut Page)
    requires { (length symbols.now ≤ frame_room) × (page.old.at + bench_line_room ≤ length page.old.octets.now) }
    ensures { PutsOn page.old (outcome_text (answered reply) high symbols.now) page.new }
{
    put_reply(reply, page);
    page.put(b' ');
    page.put(level(high));
    page.put_octets(symbols);
    page.put(b'\n');
}

fn put_bad(line: u32, page: &mut Page)
    requires { page.old.at + bench_line_room ≤ length page.old.octets.now }
    ensures { PutsOn page.old (bad_line_text line) page.new }
{
    page.put_text(b"bad line ");
    page.put_decimal(line as usize, LINE_DIGITS);
    page.put(b'\n');
}

#[tactic(auto, using(crate::proofs::Texts::is_refused, crate::proofs::Texts::is_word), unfolding(crate::specs::Print::reason_text))]
fn put_reason(why: Why<u8>, page: &mut Page)
    requires { page.old.at + 15 ≤ length page.old.octets.now }
    ensures { PutsOn page.old (reason_text (named why)) page.new }
{
    match why {
        Why::Refused(number) => {
            page.put_text(b"refused ");
            page.put_decimal(usize::from(number), 3);
        }
        Why::KindOff => page.put_text(b"kind off"),
        Why::CrcWrong => page.put_text(b"CRC wrong"),
        Why::NoRoom => page.put_text(b"no room"),
        Why::IsGoodCrc => page.put_text(b"it is a GoodCRC"),
        Why::AutoCrcOff => page.put_text(b"AUTO_CRC off"),
        Why::AutoPreOn => page.put_text(b"AUTO_PRE on"),
        Why::DriverOff => page.put_text(b"driver off"),
        Why::Leaves => page.put_text(b"leaves"),
    }
}

fn put_why(number: u32, why: Why<u8>, page: &mut Page)
    requires { page.old.at + bench_line_room ≤ length page.old.octets.now }
    ensures { PutsOn page.old (why_text number (named why)) page.new }
{
    page.put_decimal(number as usize, LINE_DIGITS);
    page.put(b' ');
    put_reason(why, page);
    page.put(b'\n');
}

// Prints what came of a write or an event; nothing without room, nor with more symbols than any event sends.
// Its refusal is of any type that converts to a number, `u8` itself among them, so that any number is printed.
pub fn print_outcome<N: Into<u8>>(reply: Reply<N>, high: bool, symbols: &[u8], page: &mut Page)
    ensures same_octets { SameOctets page.old page.new }
    ensures prints { (m : _) × Answers N.converts reply m × PrintsOutcome m high symbols.now page.old.octets.now page.old.at page.new.at page.new.octets.now }
{
    let reply = answered(reply);
    if symbols.len() <= FRAME_ROOM && page.has_room(BENCH_LINE_ROOM) {
        put_outcome(reply, high, symbols, page);
    }
}

// Prints that a line is out of form or missing; without room nothing.
pub fn print_bad(line: u32, page: &mut Page)
    ensures same_octets { SameOctets page.old page.new }
    ensures prints { PrintsBad line page.old.octets.now page.old.at page.new.at page.new.octets.now }
{
    if page.has_room(BENCH_LINE_ROOM) {
        put_bad(line, page);
    }
}

// Prints why the packet of a line gets no GoodCRC, or that one leaves; without room nothing.
// Its refusal is as in `print_outcome`.
pub fn print_why<N: Into<u8>>(line: u32, why: Why<N>, page: &mut Page)
    ensures same_octets { SameOctets page.old page.new }
    ensures prints { (o : _) × Names N.converts why o × PrintsWhy line o page.old.octets.now page.old.at page.new.at page.new.octets.now }
{
    let why = named(why);
    if page.has_room(BENCH_LINE_ROOM) {
        put_why(line, why, page);
    }
}
