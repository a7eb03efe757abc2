//! The length of a day and of a minute, and the last minute that has a time. (The link, which stands on no crate, has
//! its own length of a day: link_model.)

/// The minutes of a day.
pub const DAY_MINUTES: u32 = 1440;

/// The seconds of a day.
pub const DAY_SECONDS: u32 = 86400;

/// The seconds of a minute.
pub const MINUTE_SECONDS: u32 = 60;

/// The last minute whose first second has a time of 32 bits (Appendix 1, TimeReal), since 1970-01-01 00:00 GMT.
pub const LAST_MINUTE: u32 = 71_582_788;
