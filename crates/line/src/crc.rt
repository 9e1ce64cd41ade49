// CRC-32, bit by bit (01, 'Line code (PD)').
ghost use Rattle.std.specs.Prelude.{◌≡◌};
ghost use Rattle.line.specs.Crc.{crc_bit, crc_octet, IsCrc, SaysCrcRight};

const POLYNOMIAL: u32 = 0xEDB8_8320;

#[tactic(auto, using(crate::proofs::Register::even, crate::proofs::Register::odd))]
fn bit(c: u32) -> u32
    ensures { result ≡ crc_bit c }
{
    if c & 1 == 0 {
        c >> 1
    } else {
        (c >> 1) ^ POLYNOMIAL
    }
}

#[tactic(auto, using(crate::proofs::Register::turn, crate::proofs::Register::eighth), unfolding(crate::specs::Crc::crc_bits))]
fn octet(c: u32, b: u8) -> u32
    ensures { result ≡ crc_octet c b }
{
    let mut x = c ^ u32::from(b);
    for _ in 0..8u32 {
        x = bit(x);
    }
    x
}

// The CRC of some octets; `line_c` exports it, so that C programs can call it too.
pub fn crc(octets: &[u8]) -> u32
    ensures { IsCrc octets.now result }
{
    !octets.iter().fold(0xFFFF_FFFF, |c, b| octet(c, *b))
}

// Whether the last four octets are the CRC of the others, the least significant first; fewer than four have none.
#[tactic(auto, using(crate::proofs::Crcs::crc_few, crate::proofs::Crcs::crc_is))]
pub fn right(octets: &[u8]) -> bool
    ensures { SaysCrcRight octets.now result }
{
    let Some((message, tail)) = octets.split_last_chunk::<4>() else {
        return false;
    };
    crc(message) == u32::from_le_bytes(*tail)
}
