// Why an event is refused, and the number of each reason (01, 'Numbers of no').
ghost use Rattle.std.specs.Prelude.{◌≡◌};
ghost use Rattle.fusb302.specs.Refusals.{number_of};
ghost use Rattle.fusb302.specs.declared.refusals.No.TheVariants.{NoSuchKind};

use line::kind::UnknownKind;

// In the order in which an event is tried for them.
#[derive(Clone, Copy, Debug, PartialEq, Eq)]
pub enum No {
    // Fewer symbols are lent than the longest frame has.
    SmallBuffer,
    NoSuchAddress,
    // A write to an address that is only read.
    ReadOnly,
    // A write to the port, or a start, while a request is open.
    RequestOpen,
    // An octet at the port that is neither data nor a token.
    NotAToken,
    QueueFull,
    // A start of a queue that spells no message.
    NotAMessage,
    // A start or a Hard Reset while the driver is off.
    DriverOff,
    // A read of the port while nothing is held.
    NothingHeld,
    // A packet of a kind above 4.
    NoSuchKind,
    // A packet of fewer than 6 octets, or of more than 34.
    WrongLength,
    // More than 1,000 microseconds at once.
    TimeTooLong,
}

impl From<UnknownKind> for No {
    ghost from_gives = { λ _ no. no ≡ NoSuchKind };

    fn from(_: UnknownKind) -> Self {
        No::NoSuchKind
    }
}

impl From<No> for u8 {
    ghost from_gives = { λ no n. n ≡ number_of no };

    fn from(no: No) -> u8 {
        match no {
            No::SmallBuffer => 12,
            No::NoSuchAddress => 1,
            No::ReadOnly => 2,
            No::RequestOpen => 6,
            No::NotAToken => 3,
            No::QueueFull => 5,
            No::NotAMessage => 4,
            No::DriverOff => 7,
            No::NothingHeld => 8,
            No::NoSuchKind => 11,
            No::WrongLength => 9,
            No::TimeTooLong => 10,
        }
    }
}
