// Texts put on a page: each method puts its own and moves the place behind it; without room it puts nothing.
//
// Lent octets and no String, since no crate here has a heap.
// No `Display`, since `fmt` promises its text where it answers Ok (`DisplaysOnOk`), and `Prints`, `PrintsOutcome`, `Feeds` and `Finishes` wherever it has room.
// Each method asks for its room and lays its text: one method over a closure would need clauses at each closure.
// That the octets stay the same lent ones is a clause, `SameOctets`: a relation of the page before and after, which no field of a page says.
ghost use Rattle.std.specs.Prelude.{◌≡◌, [], ◌∷◌, ◌+◌, ◌*◌, leb, length};
ghost use Rattle.text.specs.Hex.{hex_of};
ghost use Rattle.text.specs.Put.{decimal_of, octets_text, has_room, TellsRoom};
ghost use Rattle.text.specs.Page.{PrintsOn};

// Lent octets, and the place from which the next text goes.
#[derive(Drop)]
pub struct Page<'a> {
    pub octets: &'a mut [u8],
    pub at: usize,
}

// Whether `need` more have room behind `at`, in so many octets.
pub fn has_room(need: usize, octets: usize, at: usize) -> bool
    ensures { TellsRoom need octets at result }
{
    need <= octets && at <= octets - need
}

impl Page<'_> {
    // Whether `need` more have room.
    pub fn has_room(&self, need: usize) -> bool
        ensures { TellsRoom need (length self.now.octets.now) self.now.at result }
    {
        has_room(need, self.octets.len(), self.at)
    }

    // Whether three times so many have room: by division first, since the product need not fit.
    fn has_room_thrice(&self, count: usize) -> bool
        ensures { result ≡ leb (self.now.at + 3 * count) (length self.now.octets.now) }
    {
        count <= self.octets.len() / 3 && self.has_room(3 * count)
    }

    pub fn put(&mut self, b: u8)
        ensures { PrintsOn (has_room 1 self.old.octets.now self.old.at) self.old (b ∷ []) self.new }
    {
        if self.has_room(1) {
            self.lay(b);
        }
    }

    pub fn put_octet(&mut self, b: u8)
        ensures { PrintsOn (has_room 2 self.old.octets.now self.old.at) self.old (hex_of b) self.new }
    {
        if self.has_room(2) {
            self.lay_octet(b);
        }
    }

    pub fn put_text(&mut self, text: &[u8])
        ensures { PrintsOn (has_room (length text.now) self.old.octets.now self.old.at) self.old text.now self.new }
    {
        if self.has_room(text.len()) {
            self.lay_text(text);
        }
    }

    // A number in at most so many digits, of a longer one the last so many; for so many there has to be room.
    pub fn put_decimal(&mut self, n: usize, most: usize)
        ensures { PrintsOn (has_room most self.old.octets.now self.old.at) self.old (decimal_of most n) self.new }
    {
        if self.has_room(most) {
            self.lay_decimal(n, most);
        }
    }

    // A space and two digits for each octet, or ` -` for none.
    pub fn put_octets(&mut self, octets: &[u8])
        ensures { PrintsOn (has_room (length (octets_text octets.now)) self.old.octets.now self.old.at) self.old (octets_text octets.now) self.new }
    {
        if octets.is_empty() {
            self.put_text(b" -");
        } else if self.has_room_thrice(octets.len()) {
            self.lay_spaced(octets);
        }
    }
}
