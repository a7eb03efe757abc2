//! A sink that tells what it took beside the devices, and when: how far their clocks had come as each write began. So
//! a line that acknowledges a minute before its device has it is told apart from one that does not.
#![tactic(auto)]

mod keeping;
mod line;
mod teller;

pub use keeping::keep_and_tell;
pub use line::put_line;
pub use teller::Teller;
