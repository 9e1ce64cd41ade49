// The lines that are printed: one for each frame, and a last one where the record does not go on with a frame.
// No `Display`: `Feeds` and `Finishes` promise the whole text where there is room, and else none of it (text/src/page.rt).
// Room is a clause and no type: a text takes of it, so that it holds where a function begins and not where it ends.
ghost use Rattle.std.specs.Prelude.{◌+◌, ◌≤◌, length};
ghost use Rattle.line.specs.Numbered.{kind_number};
ghost use Rattle.text.specs.Put.{has_room};
ghost use Rattle.text.specs.Page.{PutsOn, PrintsOn};
ghost use Rattle.listing.specs.Lines.{mark_text, frame_text, no_text, bad_octet_text, frame_line_room};

use line::read::FoundFrame;
use text::Page;

// As many digits as any place or number has.
const PLACE_DIGITS: usize = 20;

// `~` behind the kind of a frame whose set was not exact.
#[tactic(auto, unfolding(crate::specs::Lines::mark_text))]
fn put_mark(exact: bool, page: &mut Page)
    ensures { PrintsOn (has_room 1 page.old.octets.now page.old.at) page.old (mark_text exact) page.new }
{
    if !exact {
        page.put(b'~');
    }
}

// The line of a frame.
pub(crate) fn put_frame(place: usize, found: FoundFrame, octets: &[u8], page: &mut Page)
    requires { (length octets.now ≤ 34) × (page.old.at + frame_line_room ≤ length page.old.octets.now) }
    ensures { PutsOn page.old (frame_text place (record { shape = record { kind = kind_number found.kind; octets = octets.now }; exact = found.exact })) page.new }
{
    page.put_decimal(place, PLACE_DIGITS);
    page.put(b' ');
    page.put_decimal(usize::from(u8::from(found.kind)), 1);
    put_mark(found.exact, page);
    page.put_octets(octets);
    page.put(b'\n');
}

// A number and no `ReadError`, here and where one is given: `no_text` prints it, and 14 stands at a record's end too, where no error is.
pub(crate) fn put_no(number: usize, place: usize, page: &mut Page)
    requires { page.old.at + frame_line_room ≤ length page.old.octets.now }
    ensures { PutsOn page.old (no_text number place) page.new }
{
    page.put_text(b"no");
    page.put_decimal(number, 2);
    page.put(b' ');
    page.put_decimal(place, PLACE_DIGITS);
    page.put(b'\n');
}

pub(crate) fn put_bad(number: usize, page: &mut Page)
    requires { page.old.at + frame_line_room ≤ length page.old.octets.now }
    ensures { PutsOn page.old (bad_octet_text number) page.new }
{
    page.put_text(b"bad octet ");
    page.put_decimal(number, PLACE_DIGITS);
    page.put(b'\n');
}
