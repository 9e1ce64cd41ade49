// The FUSB302B, driven by what firmware can touch: code proved to be the machine.
#![tactic(auto)]

mod bits;
pub mod device;
mod fifo;
mod header;
mod packets;
pub mod pins;
mod queue;
mod reads;
pub mod refusals;
mod requests;
mod send;
pub mod why;
mod writes;

pub use device::{Device, Outcome, Reply};
pub use pins::Millivolts;
pub use refusals::No;
pub use why::Why;
