// The line reader: a record and a cursor by value, and the first frame with the tail behind it in one call (01, 'Line reader').
ghost use Rattle.std.specs.Prelude.{◌≡◌, ◌+◌, ◌*◌, ◌≤◌, ◌<◌, ◌^◌, length, take};
ghost use Rattle.line.specs.Symbol.{nibble_of, octets_of};
ghost use Rattle.line.specs.Numbered.{sop_number};
ghost use Rattle.line.specs.Read.{nibble_run, may_end, body_at, with_set, checked, first_of};
ghost use Rattle.line.specs.Reader.{octet_room, said, Tells, Reads, behind, IsTail, ReadsFirst};

use crate::crc::right;
use crate::kind::{Kind, SopKind};
use crate::sets::{Start, set_at};
use crate::symbols::{EOP, is_nibble, nibble};

// A place in a record.
#[derive(Clone, Copy, Debug, PartialEq, Eq)]
pub struct Cursor {
    pub at: usize,
}

// A frame that was read: its kind, whether its set was exact (02, A4), the number of its octets with CRC and the place after it.
// A count and no part of the lent octets, since `Reads` says of all of them what they end as.
#[derive(Clone, Copy, Debug, PartialEq, Eq)]
pub struct FoundFrame {
    pub kind: Kind,
    pub exact: bool,
    pub count: usize,
    pub next: Cursor,
}

// Why no frame was read: too little room for its octets, or the place, counted from the cursor, at which there is no frame.
#[derive(Clone, Copy, Debug, PartialEq, Eq)]
pub enum ReadError {
    SmallBuffer,
    NoFrame(usize),
    TooShort(usize),
    WrongCrc(usize),
}

// What the reader answers.
pub type Answer = Result<FoundFrame, ReadError>;

// The most octets of a frame, CRC included (01, 'Line reader').
pub const OCTET_ROOM: usize = 34;

// The symbols of a record from a cursor on: a part of the caller's own, none where the cursor is past the end.
pub fn rest<'a>(line: &'a [u8], cursor: Cursor) -> &'a [u8]
    ensures { IsTail line.entry cursor.at result }
{
    &line[cursor.at.min(line.len())..]
}

// How many nibbles a message's symbols begin with, 68 at most.
fn nibbles(body: &[u8]) -> usize
    ensures { result ≡ nibble_run 68 body.now }
{
    // A part and no `take(68)`, behind which `frames` takes a quarter longer: 0.24 s over 10 MB where it takes 0.19 s.
    let most = &body[..body.len().min(68)];
    most.iter().take_while(|symbol| is_nibble(**symbol)).count()
}

// Whether a symbol ends a message of so many nibbles.
#[tactic(auto, unfolding(crate::specs::Read::may_end))]
fn may_end(n: usize, symbol: u8) -> bool
    ensures { result ≡ may_end n symbol }
{
    symbol == EOP && 12 <= n && n % 2 == 0
}

// The octet of two nibbles, the low one first.
fn octet(low: u8, high: u8) -> u8
    requires { (nibble_of low < 16) × (nibble_of high < 16) }
    ensures { result ≡ nibble_of low + 16 * nibble_of high }
{
    nibble(low).unwrap() + 16 * nibble(high).unwrap()
}

// The octets of pairs of nibbles, as many as are lent.
fn get_octets(body: &[u8], octets: &mut [u8])
    requires { 2 * length octets.old ≤ nibble_run 68 body.now }
    ensures { octets.new ≡ octets_of (take (2 * length octets.old) body.now) }
{
    // The pairs by their place: std says nothing of what the octets lent by `iter_mut` behind `zip` end as, and a recursion that splits them off is longer.
    for (i, o) in octets.iter_mut().enumerate() {
        *o = octet(body[2 * i], body[2 * i + 1]);
    }
}

// A message whose shape is whole, by its CRC. The octets wait in an array of their own, so that a wrong CRC leaves the lent ones.
fn read_octets(
    set: Start<SopKind>,
    body: &[u8],
    count: usize,
    at: usize,
    octets: &mut [u8],
) -> Answer
    requires { (2 * count ≤ nibble_run 68 body.now) × (6 ≤ count) × (count ≤ octet_room) × (octet_room ≤ length octets.old) × (at + (5 + 2 * count) < 2 ^ 64) }
    ensures { Tells at (checked set.exact (record { kind = sop_number set.kind; octets = octets_of (take (2 * count) body.now) })) octets.old result octets.new }
{
    let mut held = [0u8; OCTET_ROOM];
    get_octets(body, &mut held[..count]);
    if right(&held[..count]) {
        octets[..count].copy_from_slice(&held[..count]);
        return Ok(FoundFrame {
            kind: Kind::Message(set.kind),
            exact: set.exact,
            count,
            next: Cursor {
                at: at + 5 + 2 * count,
            },
        });
    }
    Err(ReadError::WrongCrc(4 + 2 * count))
}

// What follows the set of an SOP kind.
#[tactic(auto, using(crate::proofs::Reading::body_within, crate::proofs::Reading::body_most, crate::proofs::Reading::ending, crate::proofs::Reading::pairs))]
fn read_message(set: Start<SopKind>, body: &[u8], at: usize, octets: &mut [u8]) -> Answer
    requires { (octet_room ≤ length octets.old) × (at + (4 + length body.now) < 2 ^ 64) }
    ensures { Tells at (first_of set.exact (with_set (sop_number set.kind) (body_at body.now))) octets.old result octets.new }
{
    let n = nibbles(body);
    let Some(symbol) = body.get(n) else {
        return Err(ReadError::TooShort(4 + n));
    };
    if may_end(n, *symbol) {
        return read_octets(set, body, n / 2, at, octets);
    }
    Err(ReadError::NoFrame(4 + n))
}

// The frame that stands at the cursor. Its octets with CRC go to the lent ones; a refusal writes nothing.
#[tactic(auto, using(crate::proofs::Reading::set_fits))]
pub fn read_frame(line: &[u8], cursor: Cursor, octets: &mut [u8]) -> Answer
    ensures { Reads line.now cursor.at octets.old result octets.new }
{
    if octets.len() < OCTET_ROOM {
        return Err(ReadError::SmallBuffer);
    }
    let at = cursor.at;
    let part = rest(line, cursor);
    let set = set_at(part)?;
    match set.kind {
        Kind::Message(kind) => {
            let exact = set.exact;
            read_message(Start { kind, exact }, &part[4..], at, octets)
        }
        Kind::HardReset => Ok(FoundFrame {
            kind: set.kind,
            exact: set.exact,
            count: 0,
            next: Cursor { at: at + 4 },
        }),
    }
}

// What `read_first` answers: the first frame's answer, and the rest of the record.
#[derive(Clone, Copy)]
pub struct FirstRead<'a> {
    pub answer: Answer,
    pub rest: &'a [u8],
}

// The record behind an answer's frame, and all of it where there is none.
#[tactic(auto, using(crate::proofs::Tails::all_left), unfolding(crate::specs::Reader::behind))]
fn tail<'a>(line: &'a [u8], answer: Answer) -> &'a [u8]
    ensures { IsTail line.entry (behind 0 (said answer)) result }
{
    match answer {
        Ok(found) => rest(line, found.next),
        Err(_) => line,
    }
}

// The first frame of a record, and the tail of the lent slice behind it.
pub fn read_first<'a>(line: &'a [u8], octets: &mut [u8]) -> FirstRead<'a>
    ensures { ReadsFirst line.entry octets.old result octets.new }
{
    let answer = read_frame(line, Cursor { at: 0 }, octets);
    FirstRead {
        answer,
        rest: tail(line, answer),
    }
}
