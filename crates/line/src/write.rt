// The line writer (01, 'Line writer').
ghost use Rattle.std.specs.Prelude.{◌≡◌, ◌*◌, ◌≤◌, length};
ghost use Rattle.std.proofs.lemmas.List.Edits.{sets};
ghost use Rattle.line.specs.Symbol.{encoded};
ghost use Rattle.line.specs.Numbered.{sop_number};
ghost use Rattle.line.specs.declared.write.WriteError.TheVariants.{UnknownKind};
ghost use Rattle.line.specs.Write.{frame_room, Put, Writes};

use crate::crc::crc;
use crate::kind::{Kind, SopKind, UnknownKind};
use crate::sets::put_set;
use crate::symbols::{EOP, symbol};

// Why there is no frame.
#[derive(Clone, Copy, Debug, PartialEq, Eq)]
pub enum WriteError {
    SmallBuffer,
    UnknownKind,
    WrongLength,
}

impl From<UnknownKind> for WriteError {
    ghost from_gives = { λ _ error. error ≡ UnknownKind };

    fn from(_: UnknownKind) -> Self {
        WriteError::UnknownKind
    }
}

// The symbols of the longest frame: 4 of the set, 68 of 34 octets, EOP (01, 'Line code (PD)').
pub const FRAME_ROOM: usize = 73;

// Each octet as two symbols, low nibble first, at the beginning of the lent ones.
fn put_octets(octets: &[u8], symbols: &mut [u8])
    requires { 2 * length octets.now ≤ length symbols.old }
    ensures { symbols.new ≡ sets symbols.old 0 (encoded octets.now) }
{
    // By the place: std says nothing of what pairs lent by `as_chunks_mut` or `chunks_exact_mut` end as, and a recursion that splits them off is longer.
    for (i, b) in octets.iter().enumerate() {
        symbols[2 * i] = symbol(*b & 15);
        symbols[2 * i + 1] = symbol(*b >> 4);
    }
}

// The frame of a message, at the beginning of the lent symbols; its length.
fn put_message(kind: SopKind, octets: &[u8], symbols: &mut [u8]) -> usize
    requires { (length octets.now ≤ 30) × (frame_room ≤ length symbols.old) }
    ensures { Put (record { kind = sop_number kind; octets = octets.now }) symbols.old result symbols.new }
{
    put_set(Kind::Message(kind), symbols);
    put_octets(octets, &mut symbols[4..]);
    let at = 4 + 2 * octets.len();
    put_octets(&crc(octets).to_le_bytes(), &mut symbols[at..]);
    let end = at + 8;
    symbols[end] = EOP;
    end + 1
}

// Writes the frame of a kind, by its number, and its octets to the beginning of `symbols`, and no more; how many symbols. Any number is answered (`Writes`).
pub fn write_frame(kind: u8, octets: &[u8], symbols: &mut [u8]) -> Result<usize, WriteError>
    ensures { Writes (record { kind = kind; octets = octets.now }) symbols.old result symbols.new }
{
    if symbols.len() < FRAME_ROOM {
        return Err(WriteError::SmallBuffer);
    }
    let kind = Kind::try_from(kind)?;
    match kind {
        Kind::Message(sop) => {
            if octets.len() < 2 || 30 < octets.len() {
                return Err(WriteError::WrongLength);
            }
            Ok(put_message(sop, octets, symbols))
        }
        Kind::HardReset => {
            if !octets.is_empty() {
                return Err(WriteError::WrongLength);
            }
            put_set(kind, symbols);
            Ok(4)
        }
    }
}
