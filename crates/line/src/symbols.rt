// The 4b5b symbols, in the order of PD's page (01, 'Line code (PD)').
ghost use Rattle.std.specs.Prelude.{◌≡◌, ◌<◌, MatchOption};
ghost use Rattle.line.specs.Symbol.{symbol_of, nibble_of, is_nibble};

pub(crate) const EOP: u8 = 0x0D;

// The symbol of a nibble.
#[tactic(auto, unfolding(crate::specs::Symbol::symbol_of))]
pub(crate) fn symbol(nibble: u8) -> u8
    requires { nibble < 16 }
    ensures { result ≡ symbol_of nibble }
{
    match nibble {
        0x0 => 0x1E,
        0x1 => 0x09,
        0x2 => 0x14,
        0x3 => 0x15,
        0x4 => 0x0A,
        0x5 => 0x0B,
        0x6 => 0x0E,
        0x7 => 0x0F,
        0x8 => 0x12,
        0x9 => 0x13,
        0xA => 0x16,
        0xB => 0x17,
        0xC => 0x1A,
        0xD => 0x1B,
        0xE => 0x1C,
        _ => 0x1D,
    }
}

// The nibble of a symbol, if it stands for one: the rows of PD's 4b5b page, in its order and notation (02, A3).
#[tactic(auto, unfolding(crate::specs::Symbol::nibble_of, crate::specs::Symbol::place_of))]
pub(crate) fn nibble(symbol: u8) -> Option<u8>
    ensures { MatchOption result (nibble_of symbol ≡ 16) (λ n. (n < 16) × (n ≡ nibble_of symbol)) }
{
    match symbol {
        0b11110 => Some(0x0),
        0b01001 => Some(0x1),
        0b10100 => Some(0x2),
        0b10101 => Some(0x3),
        0b01010 => Some(0x4),
        0b01011 => Some(0x5),
        0b01110 => Some(0x6),
        0b01111 => Some(0x7),
        0b10010 => Some(0x8),
        0b10011 => Some(0x9),
        0b10110 => Some(0xA),
        0b10111 => Some(0xB),
        0b11010 => Some(0xC),
        0b11011 => Some(0xD),
        0b11100 => Some(0xE),
        0b11101 => Some(0xF),
        0b11000 => None, // Sync-1
        0b10001 => None, // Sync-2
        0b00111 => None, // RST-1
        0b11001 => None, // RST-2
        0b01101 => None, // EOP
        0b00000 => None, // reserved
        0b00001 => None, // reserved
        0b00010 => None, // reserved
        0b00011 => None, // reserved
        0b00100 => None, // reserved
        0b00101 => None, // reserved
        0b00110 => None, // Sync-3
        0b01000 => None, // reserved
        0b01100 => None, // reserved
        0b10000 => None, // reserved
        0b11111 => None, // reserved
        _ => None, // no symbol
    }
}

#[tactic(auto, unfolding(crate::specs::Symbol::is_nibble))]
pub(crate) fn is_nibble(symbol: u8) -> bool
    ensures { result ≡ is_nibble symbol }
{
    nibble(symbol).is_some()
}
