//! The days that a `TimeReal` can name.

/// How many days a `TimeReal` can name, from 1970-01-01 on.
pub const DAYS: u32 = 49711;
