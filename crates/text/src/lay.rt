// Texts laid on a page whose room is known. Room is a clause and no type: a text takes of it, so that it holds where a method begins and not where it ends.
ghost use Rattle.std.specs.Prelude.{[], ◌∷◌, ◌+◌, ◌*◌, ◌≤◌, length};
ghost use Rattle.text.specs.Hex.{hex_of};
ghost use Rattle.text.specs.Put.{decimal_of, spaced};
ghost use Rattle.text.specs.Page.{PutsOn};

use crate::hex::digit;
use crate::page::Page;

impl Page<'_> {
    pub(crate) fn lay(&mut self, b: u8)
        requires { self.old.at + 1 ≤ length self.old.octets.now }
        ensures { PutsOn self.old (b ∷ []) self.new }
    {
        self.octets[self.at] = b;
        self.at += 1;
    }

    #[tactic(auto, using(crate::proofs::Texts::copied, crate::proofs::Pages::on))]
    pub(crate) fn lay_text(&mut self, text: &[u8])
        requires { self.old.at + length text.now ≤ length self.old.octets.now }
        ensures { PutsOn self.old text.now self.new }
    {
        let end = self.at + text.len();
        self.octets[self.at..end].copy_from_slice(text);
        self.at = end;
    }

    #[tactic(auto, unfolding(crate::specs::Hex::hex_of), using(crate::proofs::Pages::then_on))]
    pub(crate) fn lay_octet(&mut self, b: u8)
        requires { self.old.at + 2 ≤ length self.old.octets.now }
        ensures { PutsOn self.old (hex_of b) self.new }
    {
        self.lay(digit(b / 16));
        self.lay(digit(b % 16));
    }

    // A number in at most so many digits, of a longer one the last so many; `as`, since a digit fits.
    pub(crate) fn lay_decimal(&mut self, n: usize, most: usize)
        requires { self.old.at + most ≤ length self.old.octets.now }
        ensures { PutsOn self.old (decimal_of most n) self.new }
    {
        if most == 0 {
            return;
        }
        if n < 10 {
            return self.lay(b'0' + n as u8);
        }
        self.lay_decimal(n / 10, most - 1);
        self.lay(b'0' + (n % 10) as u8);
    }

    // A space and the two digits of an octet.
    fn lay_symbol(&mut self, symbol: u8)
        requires { self.old.at + 3 ≤ length self.old.octets.now }
        ensures { PutsOn self.old (0x20 ∷ hex_of symbol) self.new }
    {
        self.lay(b' ');
        self.lay_octet(symbol);
    }

    pub(crate) fn lay_spaced(&mut self, octets: &[u8])
        requires { self.old.at + 3 * length octets.now ≤ length self.old.octets.now }
        ensures { PutsOn self.old (spaced octets.now) self.new }
    {
        for octet in octets {
            self.lay_symbol(*octet);
        }
    }
}
