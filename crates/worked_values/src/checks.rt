//! What a test says, by one call: where it is not so, the test ends with a message.
use std::fmt::Debug;
use std::process::Abort;

/// These two are equal.
pub fn same<T: PartialEq + Debug>(rt: &impl Abort, left: &T, right: &T) {
    assert_eq!(rt; *left, *right);
}

/// These bytes are equal.
pub fn same_bytes(rt: &impl Abort, left: &[u8], right: &[u8]) {
    assert_eq!(rt; left, right);
}

/// This holds.
pub fn holds(rt: &impl Abort, what: bool) {
    assert!(rt; what);
}
