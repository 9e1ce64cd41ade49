// The line code of USB PD 2.0: symbols, CRC-32, the frame writer and the frame reader (01, 'Line code (PD)').
//
// No public function has a `requires`: whatever a caller passes is answered. specs/ says what each answer is.
#![tactic(auto)]

pub mod crc;
pub mod kind;
pub mod read;
mod sets;
mod symbols;
pub mod write;
