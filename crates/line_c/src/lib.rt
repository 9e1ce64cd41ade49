// The CRC of the line code for C and Rust programs, under the name `crc`.
#![tactic(auto)]

ghost use Rattle.line.specs.Crc.{IsCrc};

// The CRC of some octets.
#[unsafe(no_mangle)]
pub extern "C" fn crc(octets: &[u8]) -> u32
    ensures { IsCrc octets.now result }
{
    line::crc::crc(octets)
}
