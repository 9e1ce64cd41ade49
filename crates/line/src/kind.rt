// The kinds of frames and their numbers (01, 'Line code (PD)', table).
ghost use Rattle.std.specs.Prelude.{◌≡◌};
ghost use Rattle.line.specs.Numbered.{NamesKind, NamesSop, kind_number, sop_number};

// The SOP kinds, which carry a message.
#[derive(Clone, Copy, Debug, PartialEq, Eq)]
pub enum SopKind {
    Sop,
    SopPrime,
    SopDoublePrime,
    SopPrimeDebug,
    SopDoublePrimeDebug,
}

// The kinds of frames: a message, or a set alone.
#[derive(Clone, Copy, Debug, PartialEq, Eq)]
pub enum Kind {
    Message(SopKind),
    HardReset,
}

// A number that names no kind, or none of those asked for.
#[derive(Clone, Copy, Debug, PartialEq, Eq)]
pub struct UnknownKind;

impl TryFrom<u32> for SopKind {
    type Error = UnknownKind;

    ghost try_from_gives = { NamesSop };

    fn try_from(number: u32) -> Result<Self, UnknownKind> {
        match number {
            0 => Ok(SopKind::Sop),
            1 => Ok(SopKind::SopPrime),
            2 => Ok(SopKind::SopDoublePrime),
            3 => Ok(SopKind::SopPrimeDebug),
            4 => Ok(SopKind::SopDoublePrimeDebug),
            _ => Err(UnknownKind),
        }
    }
}

impl TryFrom<u8> for Kind {
    type Error = UnknownKind;

    ghost try_from_gives = { NamesKind };

    fn try_from(number: u8) -> Result<Self, UnknownKind> {
        if number == 5 {
            return Ok(Kind::HardReset);
        }
        Ok(Kind::Message(SopKind::try_from(u32::from(number))?))
    }
}

impl From<SopKind> for u8 {
    ghost from_gives = { λ kind n. n ≡ sop_number kind };

    fn from(kind: SopKind) -> u8 {
        match kind {
            SopKind::Sop => 0,
            SopKind::SopPrime => 1,
            SopKind::SopDoublePrime => 2,
            SopKind::SopPrimeDebug => 3,
            SopKind::SopDoublePrimeDebug => 4,
        }
    }
}

impl From<Kind> for u8 {
    ghost from_gives = { λ kind n. n ≡ kind_number kind };

    fn from(kind: Kind) -> u8 {
        match kind {
            Kind::Message(sop) => u8::from(sop),
            Kind::HardReset => 5,
        }
    }
}
