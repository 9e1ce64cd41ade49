// The receive FIFO: packets, each behind its token, read octet by octet (01, 'Packets heard').
ghost use Rattle.std.specs.Prelude.{◌≡◌, ◌≤◌, length};

// An array and a length, since a device is Copy and asks for no heap: the kit's ArrayVec is not Copy.
#[derive(Clone, Copy)]
pub struct Fifo {
    pub(crate) octets: [u8; Fifo::CAPACITY],
    pub(crate) len: usize,
    ghost size: { length octets ≡ 80 },
    ghost room: { len ≤ 80 },
}

impl Fifo {
    ghost use Rattle.std.specs.Prelude.{[], ◌∷◌, ◌++◌, suc, ◌+◌, MatchOption};
    ghost use Rattle.fusb302.specs.Held.{held};

    pub(crate) const CAPACITY: usize = 80;

    pub(crate) fn empty() -> Fifo
        ensures { held result ≡ [] }
    {
        Fifo {
            octets: [0; Fifo::CAPACITY],
            len: 0,
        }
    }

    // A packet behind its token.
    pub(crate) fn store(mut self, token: u8, packet: &[u8]) -> Fifo
        requires { self.len + suc (length packet.now) ≤ 80 }
        ensures { held result ≡ held self ++ (token ∷ packet.now) }
    {
        let start = self.len + 1;
        let end = start + packet.len();
        self.octets[self.len] = token;
        self.octets[start..end].copy_from_slice(packet);
        self.len = end;
        self
    }

    // Takes the oldest octet, if one is held.
    pub(crate) fn pop(&mut self) -> Option<u8>
        ensures { MatchOption result ((held self.old ≡ []) × (self.new ≡ self.old)) (λ octet. held self.old ≡ octet ∷ held self.new) }
    {
        if self.len == 0 {
            return None;
        }
        let octet = self.octets[0];
        self.octets.rotate_left(1);
        self.len -= 1;
        Some(octet)
    }
}
