//! Where a medium in memory is to fail.
use crate::Left;

/// Makes one call of a medium in memory fail. Reads and writes are numbered together, from 0. Of a read nothing is
/// left, whatever `left` says.
#[derive(Clone, Copy, Debug, PartialEq, Eq)]
pub struct Stop {
    pub call: u64,
    pub left: Left,
}
