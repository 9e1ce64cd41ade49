// What is on a line: the text of a record, character by character, to a line of text for each frame in it.
#![tactic(auto)]

ghost use Rattle.std.specs.Prelude.{◌≡◌, true, Some, ◌+◌, ◌≤◌, ◌<◌, ◌^◌, length};
ghost use Rattle.text.specs.Put.{has_room};
ghost use Rattle.text.specs.Page.{PutsOn, SameOctets};
ghost use Rattle.listing.specs.Lines.{frame_line_room};
ghost use Rattle.listing.specs.declared.form.Scan.TheVariants.{Symbol};
ghost use Rattle.listing.specs.Steps.{end_text};
ghost use Rattle.listing.specs.Promises.{Bounded, in_bounds, may_print, fed_as, Goes, BeginsListing, Feeds, Finishes};

use crate::form::{Scan, form_after, input_may_end};
use crate::print::{put_bad, put_frame, put_no};
use line::read::{Cursor, OCTET_ROOM, ReadError, read_frame};
use line::write::FRAME_ROOM;
use text::Page;

mod form;
mod print;

// Room for any line: a place, a space, the kind and its mark, 34 octets, LF.
pub const FRAME_LINE_ROOM: usize = 126;

// What is held of an input: its form so far, the place of the symbols that no frame has yet, and how many these are.
// They stand at the beginning of a window that is lent, since `Feeds` and `ListsByCalls` promise for whatever window that is.
#[derive(Clone, Copy)]
pub struct Listing {
    scan: Scan,
    before: usize,
    count: usize,
}

// Room is a clause, and that the octets stay the same ones (`SameOctets`): see print.rt, and text/src/page.rt.
impl Listing {
    #[tactic(auto, unfolding(crate::specs::Steps::empty_state))]
    pub fn begin() -> Listing
        ensures { BeginsListing result }
    {
        Listing {
            scan: Scan::Begin,
            before: 0,
            count: 0,
        }
    }

    // A symbol: with those before it a frame, too few for one, or no frame.
    fn symbol(self, v: u8, window: &mut [u8; FRAME_ROOM], page: &mut Page) -> Option<Listing>
        requires { Bounded self × (has_room frame_line_room page.old.octets.now page.old.at ≡ true) }
        ensures same_octets { SameOctets page.old page.new }
        ensures goes { Goes self (Some (Symbol v)) window.old page.old.octets.now page.old.at (fed_as self result page.new.at) window.new page.new.octets.now }
    {
        let place = self.before;
        let n = self.count;
        window[n] = v;
        let mut octets = [0u8; OCTET_ROOM];
        match read_frame(&window[..n + 1], Cursor { at: 0 }, &mut octets) {
            Ok(found) => {
                let octets = &octets[..found.count];
                put_frame(place, found, octets, page);
                Some(Listing {
                    scan: Scan::Symbol(v),
                    before: place + n + 1,
                    count: 0,
                })
            }
            Err(ReadError::TooShort(_)) => Some(Listing {
                scan: Scan::Symbol(v),
                before: place,
                count: n + 1,
            }),
            Err(ReadError::NoFrame(p)) => {
                put_no(13, place + p, page);
                None
            }
            Err(ReadError::WrongCrc(p)) => {
                put_no(15, place + p, page);
                None
            }
            Err(ReadError::SmallBuffer) => unreachable!(),
        }
    }

    // By what the text ends with now.
    fn go(self, to: Option<Scan>, window: &mut [u8; FRAME_ROOM], page: &mut Page) -> Option<Listing>
        requires { Bounded self × (has_room frame_line_room page.old.octets.now page.old.at ≡ true) }
        ensures same_octets { SameOctets page.old page.new }
        ensures goes { Goes self to window.old page.old.octets.now page.old.at (fed_as self result page.new.at) window.new page.new.octets.now }
    {
        let Some(scan) = to else {
            put_bad(self.before + self.count + 1, page);
            return None;
        };
        match scan {
            Scan::Symbol(v) => self.symbol(v, window, page),
            _ => Some(Listing { scan, ..self }),
        }
    }

    // Whether fewer symbols are held than the longest frame has, and the next one's number can be printed.
    fn in_bounds(self) -> bool
        ensures { result ≡ in_bounds self }
    {
        self.count < FRAME_ROOM && self.before < usize::MAX - self.count
    }

    // Whether the page has room for any line, and the listing is in bounds.
    fn may_print(self, page: &Page) -> bool
        ensures { result ≡ may_print self page.now.octets.now page.now.at }
    {
        self.in_bounds() && page.has_room(FRAME_LINE_ROOM)
    }

    // Takes a character: the listing that goes on, or none where it ends, as it does without room for a line or past what 64 bits count.
    #[tactic(auto, unfolding(crate::specs::Promises::TakesCharacter))]
    pub fn feed(self, c: u8, window: &mut [u8; FRAME_ROOM], page: &mut Page) -> Option<Listing>
        ensures same_octets { SameOctets page.old page.new }
        ensures feeds { Feeds self c window.old page.old.octets.now page.old.at (fed_as self result page.new.at) window.new page.new.octets.now }
    {
        if self.may_print(page) {
            return self.go(form_after(self.scan, c), window, page);
        }
        None
    }

    #[tactic(auto, unfolding(crate::specs::Steps::end_text, crate::specs::Listed::short_text))]
    fn put_end(self, page: &mut Page)
        requires { (self.before + self.count + 1 < 2 ^ 64) × (page.old.at + frame_line_room ≤ length page.old.octets.now) }
        ensures { PutsOn page.old (end_text self.scan self.before self.count) page.new }
    {
        let place = self.before + self.count;
        if !input_may_end(self.scan) {
            put_bad(place + 1, page);
        } else if self.count != 0 {
            put_no(14, place, page);
        }
    }

    // The input ends: prints what is then said, or nothing where `feed` would take nothing.
    pub fn finish(self, page: &mut Page)
        ensures same_octets { SameOctets page.old page.new }
        ensures finishes { Finishes self page.old.octets.now page.old.at page.new.at page.new.octets.now }
    {
        if self.may_print(page) {
            self.put_end(page);
        }
    }
}
