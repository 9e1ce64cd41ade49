// The bench's text: a line of input to an event, an outcome or a reason to a line of output.
#![tactic(auto)]

pub mod parse;
pub mod print;
