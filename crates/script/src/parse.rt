// A line of input to what it means (01, 'On the bench table').
ghost use Rattle.std.specs.Prelude.{◌≡◌, true, false, ◌+◌, ◌*◌, ◌≤◌, ◌<◌, length, MatchOption};
ghost use Rattle.std.proofs.lemmas.List.Edits.{sets};
ghost use Rattle.script.specs.Text.{octet_at, suits, fits, digits_in, is_octet, are_octets, octets_in};
ghost use Rattle.script.specs.Parse.{count_of, timed, packet_of, number_part, rest_part, is_spaced, next_part, voltages_of, lettered_of, form_of, event_of, ReadsCount, ReadsMillivolts, line_of, Parses, ParsesSetup};

use text::hex::{is_hex, octet_of};

// What a line says. A packet's kind is the number that stands there, since any is in form (`Parses`).
// Voltages are numbers, as `line_of` has them. A packet's octets are the first so many of those lent, and no slice, since `Parses` promises of all that are lent.
#[derive(Clone, Copy)]
pub enum Line {
    Write(u8, u8),
    Read(u8),
    Time(u32),
    HardReset,
    Packet { kind: u32, count: usize },
    Sense(u16, u16, u16),
}

// So many octets of a packet have room in 255 characters.
pub const PACKET_ROOM: usize = 84;

// The octet that the two characters from `i` on write.
#[tactic(auto, unfolding(crate::specs::Text::octet_at))]
fn octet_at(line: &[u8], i: usize) -> u8
    requires { i + 1 < length line.now }
    ensures { result ≡ octet_at i line.now }
{
    octet_of(line[i], line[i + 1])
}

// A character of a mask: # for any hex digit, each other for itself.
#[tactic(auto, using(std::proofs::lemmas::Bool::Decides::nat_tests), unfolding(crate::specs::Text::suits))]
fn suits(m: u8, c: u8) -> bool
    ensures { result ≡ suits m c }
{
    if m == b'#' { is_hex(c) } else { m == c }
}

// Whether a line has the form that a mask shows. Masks and no slice patterns, for words without `#` too: `form_of`, `lettered_of` and `setup_of` have them.
fn fits(mask: &[u8], line: &[u8]) -> bool
    ensures { result ≡ fits mask.now line.now }
{
    mask.len() == line.len() && mask.iter().zip(line).all(|(m, c)| suits(*m, *c))
}

// A count, a time or a kind: 1 to 7 digits. No `parse`: it takes a `+` before the digits, which `ReadsCount` refuses.
#[tactic(auto, using(crate::proofs::Numbers::too_few, crate::proofs::Numbers::too_many, crate::proofs::Numbers::begin, crate::proofs::Numbers::bound))]
pub fn decimal(s: &[u8]) -> Option<u32>
    ensures { ReadsCount s.now result }
{
    if s.is_empty() || s.len() > 7 {
        return None;
    }
    let mut v = 0;
    for c in s {
        v = 10 * v + char::from(*c).to_digit(10)?;
    }
    Some(v)
}

// How many digits a line begins with.
fn digits_in(s: &[u8]) -> usize
    ensures { (result ≡ digits_in s.now) × (result ≤ length s.now) }
{
    s.iter().take_while(|c| c.is_ascii_digit()).count()
}

// The digits that a line begins with, and what stands behind them.
#[tactic(auto, unfolding(crate::specs::Parse::number_part, crate::specs::Parse::rest_part))]
fn split_digits(s: &[u8]) -> (&[u8], &[u8])
    ensures { (result.0.now ≡ number_part s.now) × (result.1.now ≡ rest_part s.now) }
{
    s.split_at(digits_in(s))
}

// A space and two hex digits.
#[tactic(auto, using(std::proofs::lemmas::Bool::Decides::nat_tests), unfolding(crate::specs::Text::is_octet))]
fn is_octet(s: u8, a: u8, b: u8) -> bool
    ensures { result ≡ is_octet s a b }
{
    s == b' ' && is_hex(a) && is_hex(b)
}

fn are_octets(s: &[u8]) -> bool
    ensures { result ≡ are_octets s.now }
{
    let (groups, rest) = s.as_chunks::<3>();
    rest.is_empty() && groups.iter().all(|g| is_octet(g[0], g[1], g[2]))
}

// The octets, to the beginning of those lent. All are looked at before, so that a line out of form writes nothing.
fn store_octets(s: &[u8], octets: &mut [u8]) -> usize
    requires { (are_octets s.now ≡ true) × (length s.now ≤ 3 * length octets.old) }
    ensures { (result ≡ length (octets_in s.now)) × (octets.new ≡ sets octets.old 0 (octets_in s.now)) }
{
    let (groups, _) = s.as_chunks::<3>();
    // By the place: std says nothing of what the octets lent by `iter_mut` behind `zip` end as, and a recursion that splits them off is longer.
    for (n, g) in groups.iter().enumerate() {
        octets[n] = octet_of(g[1], g[2]);
    }
    groups.len()
}

// What follows `t `.
fn time(s: &[u8]) -> Option<Line>
    ensures { result ≡ line_of (timed (count_of s.now)) }
{
    let t = decimal(s)?;
    Some(Line::Time(t))
}

// What follows `p `: the kind, and its octets.
fn packet(s: &[u8], octets: &mut [u8; PACKET_ROOM]) -> Option<Line>
    requires { length s.now ≤ 253 }
    ensures { Parses (packet_of s.now) octets.old result octets.new }
{
    let (digits, rest) = split_digits(s);
    let kind = decimal(digits)?;
    if !are_octets(rest) {
        return None;
    }
    let count = store_octets(rest, octets);
    Some(Line::Packet { kind, count })
}

// A voltage that an event may carry (02, A1).
#[tactic(auto, using(crate::proofs::Voltages::no_volts, crate::proofs::Voltages::volts))]
fn millivolts(s: &[u8]) -> Option<u16>
    ensures { ReadsMillivolts s.now result }
{
    let v = decimal(s)?;
    u16::try_from(v).ok()
}

// The digits that a line begins with, and what stands behind the space after them.
#[tactic(auto, using(crate::proofs::Voltages::spaced, crate::proofs::Voltages::unspaced))]
fn digits_and_rest(s: &[u8]) -> Option<(&[u8], &[u8])>
    ensures { MatchOption result (is_spaced s.now ≡ false) (λ p. (is_spaced s.now ≡ true) × (p.0.now ≡ number_part s.now) × (p.1.now ≡ next_part s.now)) }
{
    let (digits, rest) = split_digits(s);
    Some((digits, rest.strip_prefix(b" ")?))
}

// What follows `v `: CC1, CC2 and VBUS.
#[tactic(auto, unfolding(crate::specs::Parse::voltages_of))]
fn voltages(s: &[u8]) -> Option<Line>
    ensures { result ≡ line_of (voltages_of s.now) }
{
    let (cc1, rest) = digits_and_rest(s)?;
    let (cc2, vbus) = digits_and_rest(rest)?;
    let cc1 = millivolts(cc1)?;
    let cc2 = millivolts(cc2)?;
    let vbus = millivolts(vbus)?;
    Some(Line::Sense(cc1, cc2, vbus))
}

// What a line says that begins with a letter and a space, by the letter.
#[tactic(auto, unfolding(crate::specs::Parse::lettered_of))]
fn lettered(line: &[u8], octets: &mut [u8; PACKET_ROOM]) -> Option<Line>
    requires { length line.now ≤ 255 }
    ensures { Parses (lettered_of line.now) octets.old result octets.new }
{
    let (head, rest) = line.split_at_checked(2)?;
    if fits(b"t ", head) {
        return time(rest);
    }
    if fits(b"p ", head) {
        return packet(rest, octets);
    }
    if fits(b"v ", head) {
        return voltages(rest);
    }
    None
}

// What a line of at most 255 characters says, by its form.
#[tactic(auto, using(crate::proofs::Masks::fits_length), unfolding(crate::specs::Parse::form_of))]
fn form(line: &[u8], octets: &mut [u8; PACKET_ROOM]) -> Option<Line>
    requires { length line.now ≤ 255 }
    ensures { Parses (form_of line.now) octets.old result octets.new }
{
    if fits(b"w ## ##", line) {
        return Some(Line::Write(octet_at(line, 2), octet_at(line, 5)));
    }
    if fits(b"r ##", line) {
        return Some(Line::Read(octet_at(line, 2)));
    }
    if fits(b"h", line) {
        return Some(Line::HardReset);
    }
    lettered(line, octets)
}

// A line of the events. Its octets are lent by themselves, as `Parses` has them.
#[tactic(auto, unfolding(crate::specs::Parse::event_of))]
pub fn parse_event(line: &[u8], octets: &mut [u8; PACKET_ROOM]) -> Option<Line>
    ensures { Parses (event_of line.now) octets.old result octets.new }
{
    if line.len() > 255 {
        return None;
    }
    form(line, octets)
}

// A line of the setup, `aa vv`.
#[tactic(auto, using(crate::proofs::Masks::fits_length), unfolding(crate::specs::Parse::setup_of))]
pub fn parse_setup(line: &[u8]) -> Option<Line>
    ensures { ParsesSetup line.now result }
{
    if fits(b"## ##", line) {
        return Some(Line::Write(octet_at(line, 0), octet_at(line, 3)));
    }
    None
}
