// Hex of two capital digits (01, 'On the bench table').
ghost use Rattle.std.specs.Prelude.{◌≡◌, ◌<◌, IfSome, is_some, unwrap_or};
ghost use Rattle.text.specs.Hex.{hex_value, digit_of, is_hex, TellsHex, MakesOctet};

// The value of a hex digit; no other character has one. Not std's `to_digit` and `from_digit`: they take and give small letters, which `is_hex` refuses.
#[tactic(auto, unfolding(crate::specs::Hex::is_hex, crate::specs::Hex::hex_value))]
fn hex_value(c: u8) -> Option<u8>
    ensures { (is_some result ≡ is_hex c) × (unwrap_or result 0 ≡ hex_value c) × IfSome result (λ n. n < 16) }
{
    match c {
        b'0'..=b'9' => Some(c - b'0'),
        b'A'..=b'F' => Some(c - b'A' + 10),
        _ => None,
    }
}

pub fn is_hex(c: u8) -> bool
    ensures { TellsHex c result }
{
    hex_value(c).is_some()
}

// The octet that two characters write; what is no digit counts as 0, since any two are answered (`MakesOctet`).
#[tactic(auto, unfolding(crate::specs::Hex::octet_of))]
pub fn octet_of(a: u8, b: u8) -> u8
    ensures { MakesOctet a b result }
{
    16 * hex_value(a).unwrap_or(0) + hex_value(b).unwrap_or(0)
}

// The hex digit of a value. No `from_digit`: see `hex_value`.
#[tactic(auto, unfolding(crate::specs::Hex::digit_of))]
pub(crate) fn digit(n: u8) -> u8
    requires { n < 16 }
    ensures { result ≡ digit_of n }
{
    if n < 10 { b'0' + n } else { b'A' + n - 10 }
}
