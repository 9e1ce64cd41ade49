// The ordered sets (01, 'Line code (PD)', table): put at the beginning of a frame, and looked for at that of a record (02, A4).
ghost use Rattle.std.specs.Prelude.{◌≡◌, ◌≤◌, length};
ghost use Rattle.std.proofs.lemmas.List.Edits.{sets};
ghost use Rattle.line.specs.Kind.{set_of};
ghost use Rattle.line.specs.Numbered.{kind_number};
ghost use Rattle.line.specs.Read.{agree};
ghost use Rattle.line.specs.Start.{TakesSet};

use crate::kind::{Kind, SopKind};
use crate::read::ReadError;

// The kinds in the order of their numbers.
const KINDS: [Kind; 6] = [
    Kind::Message(SopKind::Sop),
    Kind::Message(SopKind::SopPrime),
    Kind::Message(SopKind::SopDoublePrime),
    Kind::Message(SopKind::SopPrimeDebug),
    Kind::Message(SopKind::SopDoublePrimeDebug),
    Kind::HardReset,
];

// The set of a kind, a fixed byte string (01, 'How each place should look').
#[tactic(auto, unfolding(crate::specs::Kind::set_of))]
fn set_of(kind: Kind) -> [u8; 4]
    ensures { result ≡ set_of (kind_number kind) }
{
    match kind {
        Kind::Message(SopKind::Sop) => *b"\x18\x18\x18\x11",
        Kind::Message(SopKind::SopPrime) => *b"\x18\x18\x06\x06",
        Kind::Message(SopKind::SopDoublePrime) => *b"\x18\x06\x18\x06",
        Kind::Message(SopKind::SopPrimeDebug) => *b"\x18\x19\x19\x06",
        Kind::Message(SopKind::SopDoublePrimeDebug) => *b"\x18\x19\x06\x11",
        Kind::HardReset => *b"\x07\x07\x07\x19",
    }
}

// The set of a kind, at the beginning of the lent symbols.
pub(crate) fn put_set(kind: Kind, symbols: &mut [u8])
    requires { 4 ≤ length symbols.old }
    ensures { symbols.new ≡ sets symbols.old 0 (set_of (kind_number kind)) }
{
    symbols[..4].copy_from_slice(&set_of(kind));
}

// In how many places the set of a kind and the beginning of a record agree.
fn agree(kind: Kind, line: &[u8]) -> usize
    ensures { result ≡ agree (set_of (kind_number kind)) line.now }
{
    // A sum in a `for` and no `filter` with `count`, behind which `frames` takes twice as long where sets are near ones.
    let set = set_of(kind);
    let mut count = 0;
    for (a, b) in set.iter().zip(line) {
        count += usize::from(a == b);
    }
    count
}

// The kind whose set a record's first four symbols are taken for, any or an SOP kind, and whether they are it exactly.
#[derive(Clone, Copy)]
pub(crate) struct Start<K> {
    pub(crate) kind: K,
    pub(crate) exact: bool,
}

// The set that matches exactly, else the single one that agrees in three places (02, A4).
pub(crate) fn set_at(line: &[u8]) -> Result<Start<Kind>, ReadError>
    ensures { TakesSet line.now result }
{
    if line.len() < 4 {
        return Err(ReadError::TooShort(line.len()));
    }
    let exact = KINDS
        .iter()
        .copied()
        .find(|kind| line.starts_with(&set_of(*kind)));
    if let Some(kind) = exact {
        return Ok(Start { kind, exact: true });
    }
    let mut near = KINDS.iter().copied().filter(|kind| agree(*kind, line) == 3);
    match (near.next(), near.next()) {
        (Some(kind), None) => Ok(Start { kind, exact: false }),
        _ => Err(ReadError::NoFrame(0)),
    }
}
