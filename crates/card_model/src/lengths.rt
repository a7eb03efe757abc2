//! The lengths of a day's record, in bytes (Annex IB, Appendix 1: CardActivityDailyRecord).

/// The head of a day's record, which stands before its words.
pub const DAY_HEAD: u32 = 12;

/// The least that a day's record has: its head and one word.
pub const DAY_LEAST: u32 = 14;

/// The most that it has: its head and a word for each of its 1440 minutes.
pub const DAY_MOST: u32 = 2892;

/// The most days that a string holds, of which each has at least `DAY_LEAST` bytes.
pub const DAYS_MOST: u32 = 984;
