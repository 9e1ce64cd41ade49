// The form of a record's text, by its last character.
ghost use Rattle.std.specs.Prelude.{◌≡◌};
ghost use Rattle.listing.specs.Scans.{first_digit, second_digit, gap, form_after, input_may_end};

use text::hex::{is_hex, octet_of};

// What the text read so far ends with: nothing yet, the first digit of a symbol, a symbol, one LF or one space behind it.
#[derive(Clone, Copy)]
pub enum Scan {
    Begin,
    Digit(u8),
    Symbol(u8),
    Line,
    Space,
}

#[tactic(auto, unfolding(crate::specs::Scans::first_digit))]
fn first_digit(c: u8) -> Option<Scan>
    ensures { result ≡ first_digit c }
{
    is_hex(c).then_some(Scan::Digit(c))
}

#[tactic(auto, unfolding(crate::specs::Scans::second_digit))]
fn second_digit(a: u8, c: u8) -> Option<Scan>
    ensures { result ≡ second_digit a c }
{
    is_hex(c).then_some(Scan::Symbol(octet_of(a, c)))
}

#[tactic(auto, unfolding(crate::specs::Scans::gap))]
fn gap(c: u8) -> Option<Scan>
    ensures { result ≡ gap c }
{
    match c {
        b'\n' => Some(Scan::Line),
        b' ' => Some(Scan::Space),
        _ => None,
    }
}

// The form with one character more, and none where it breaks.
#[tactic(auto, unfolding(crate::specs::Scans::form_after))]
pub(crate) fn form_after(scan: Scan, c: u8) -> Option<Scan>
    ensures { result ≡ form_after scan c }
{
    match scan {
        Scan::Digit(a) => second_digit(a, c),
        Scan::Symbol(_) => gap(c),
        Scan::Begin | Scan::Line | Scan::Space => first_digit(c),
    }
}

// Whether the input may end there.
pub(crate) fn input_may_end(scan: Scan) -> bool
    ensures { result ≡ input_may_end scan }
{
    matches!(scan, Scan::Begin | Scan::Symbol(_) | Scan::Line)
}
