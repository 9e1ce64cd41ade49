// The transmit queue (01, 'The transmit queue'): tokens, counted blocks, and the message that it spells.
ghost use Rattle.std.specs.Prelude.{◌≡◌, ◌≤◌, ◌<◌, length, take, MatchOption};
ghost use Rattle.machine.specs.Queue.{announced, is_token, to_come};

use line::kind::SopKind;

pub(crate) const START: u8 = 0xA1;

const CRC: u8 = 0xFF;

const EOP: u8 = 0x14;

const TXOFF: u8 = 0xFE;

// What ends every message.
const CLOSING: [u8; 3] = [CRC, EOP, TXOFF];

// The tokens of the SOP kinds' sets.
const SETS: [([u8; 4], SopKind); 5] = [
    (*b"\x12\x12\x12\x13", SopKind::Sop),
    (*b"\x12\x12\x1B\x1B", SopKind::SopPrime),
    (*b"\x12\x1B\x12\x1B", SopKind::SopDoublePrime),
    (*b"\x12\x16\x16\x1B", SopKind::SopPrimeDebug),
    (*b"\x12\x16\x1B\x13", SopKind::SopDoublePrimeDebug),
];

// How many data octets a token announces, if it announces any.
#[tactic(auto, unfolding(machine::specs::Queue::announced))]
fn announced(token: u8) -> Option<u8>
    ensures { MatchOption result (announced token ≡ 0) (λ n. (n ≡ announced token) × (2 ≤ n) × (n ≤ 30)) }
{
    match token {
        0x82..=0x9E => Some(token - 0x80),
        _ => None,
    }
}

#[tactic(auto, unfolding(machine::specs::Queue::is_token, machine::specs::Queue::set_symbol))]
pub(crate) fn is_token(octet: u8) -> bool
    ensures { result ≡ is_token octet }
{
    matches!(
        octet,
        0x12 | 0x13 | 0x15 | 0x16 | 0x1B | 0x82..=0x9E | CRC | EOP | TXOFF | START
    )
}

// The octets written and not yet sent, and how many data octets of a counted block are still to come.
// An array and a length, since a device is Copy and asks for no heap.
// A type apart from Fifo: that takes packets and is read from its front, this takes octets and counts a block, and beyond their room both share only `empty`.
#[derive(Clone, Copy)]
pub struct Queue {
    pub(crate) octets: [u8; Queue::CAPACITY],
    pub(crate) len: usize,
    pub(crate) left: u8,
    ghost size: { length octets ≡ 48 },
    ghost room: { len ≤ 48 },
    ghost counted: { left ≡ to_come 0 (take len octets) },
}

// The message that a queue spells: its kind and its octets.
#[derive(Clone, Copy)]
pub(crate) struct Message<'a> {
    pub(crate) kind: SopKind,
    pub(crate) octets: &'a [u8],
    ghost least: { 2 ≤ length octets.now },
    ghost most: { length octets.now ≤ 30 },
}

impl Queue {
    ghost use Rattle.std.specs.Prelude.{[], ◌∷◌, ◌++◌};
    ghost use Rattle.machine.specs.Queue.{spelt};
    ghost use Rattle.fusb302.specs.Queued.{queued, spelt_as, sop_kind, kind_of};

    pub(crate) const CAPACITY: usize = 48;

    #[tactic(auto, unfolding(machine::specs::Queue::to_come))]
    pub(crate) fn empty() -> Queue
        ensures { queued result ≡ [] }
    {
        Queue {
            octets: [0; Queue::CAPACITY],
            len: 0,
            left: 0,
        }
    }

    pub(crate) fn push(mut self, octet: u8) -> Queue
        requires { self.len < 48 }
        ensures { queued result ≡ queued self ++ (octet ∷ []) }
    {
        self.octets[self.len] = octet;
        self.len += 1;
        self.left = if self.left == 0 {
            announced(octet).unwrap_or(0)
        } else {
            self.left - 1
        };
        self
    }

    // The SOP kind whose set the queue begins with.
    fn kind(self) -> Option<SopKind>
        ensures { sop_kind result ≡ kind_of (take 4 self.octets) }
    {
        SETS.iter()
            .find(|(set, _)| self.octets.starts_with(set))
            .map(|(_, kind)| *kind)
    }

    #[tactic(auto, using(crate::proofs::Queueing::spelt_uncounted, crate::proofs::Queueing::spelt_misfit, crate::proofs::Queueing::spelt_unset))]
    pub(crate) fn message(&self) -> Option<Message<'_>>
        ensures { spelt_as result ≡ spelt (queued self.now) }
    {
        let count = usize::from(announced(self.octets[4])?);
        if self.len != count + 8 {
            return None;
        }
        let kind = self.kind()?;
        let octets = &self.octets[5..5 + count];
        self.octets[..self.len]
            .ends_with(&CLOSING)
            .then_some(Message { kind, octets })
    }
}
