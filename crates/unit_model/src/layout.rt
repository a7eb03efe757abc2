//! The layout of a unit's image, versions 1 and 2 (profile): each field with its place and its size in bytes. A number
//! stands with its highest byte first. Days, insertions and places begin with a pointer of four bytes, and so does the
//! detailed speed.
ghost use Rattle.std.specs.Prelude.{◌≡◌, ◌≤◌, ◌<◌};
ghost use Rattle.unit_model.specs.Image.{slot_place};
ghost use Rattle.unit_model.specs.Decoding.{cell_place};

/// A field of the image: its place and its size in bytes. The fields of a day slot, of an owed row and of a cell have
/// places that are counted from its own begin.
#[derive(Clone, Copy, Debug, PartialEq, Eq)]
pub struct Field {
    /// Where its first byte stands, from 0.
    pub place: u32,
    /// How many bytes it has.
    pub size: u32,
}

/// The size of the image in bytes.
pub const IMAGE_SIZE: u32 = 2_485_808;

/// 1 or 2; 0 while the unit is formatted.
pub const VERSION: Field = Field { place: 0, size: 4 };

/// The vehicle identification number.
pub const VIN: Field = Field { place: 4, size: 17 };

/// The nation and the number of the vehicle's registration.
pub const REGISTRATION: Field = Field {
    place: 21,
    size: 15,
};

/// The authorised speed in km/h.
pub const SPEED_LIMIT: Field = Field { place: 36, size: 1 };

/// The unit's identification (Annex IB, Appendix 1, VuIdentification).
pub const IDENTIFICATION: Field = Field {
    place: 37,
    size: 116,
};

/// The sensor that is paired (Annex IB, Appendix 1, SensorPaired).
pub const SENSOR: Field = Field {
    place: 153,
    size: 20,
};

/// The certificate of the member state.
pub const STATE_CERTIFICATE: Field = Field {
    place: 173,
    size: 194,
};

/// The certificate of the unit.
pub const UNIT_CERTIFICATE: Field = Field {
    place: 367,
    size: 194,
};
/// In version 2 the rule of minutes: 0 is the original one, 1 the amended one. In version 1 it is not looked at.
pub const RULE_BYTE: Field = Field {
    place: 561,
    size: 1,
};
/// Zeros.
pub const SPARE: Field = Field {
    place: 562,
    size: 2,
};
/// The minute that was kept last, 0 for none.
pub const LAST_KEPT: Field = Field {
    place: 564,
    size: 4,
};
/// In kilometres.
pub const ODOMETER: Field = Field {
    place: 568,
    size: 4,
};
/// The begin of the first over speeding.
pub const FIRST_OVER: Field = Field {
    place: 572,
    size: 4,
};
/// The number of over speedings, at most 255.
pub const OVER_COUNT: Field = Field {
    place: 576,
    size: 4,
};
/// Zeros.
pub const SPARE_COUNTS: Field = Field {
    place: 580,
    size: 44,
};
/// Eight rows of entries that are owed to a card.
pub const OWED: Field = Field {
    place: 624,
    size: 384,
};
/// Zeros.
pub const SPARE_ROWS: Field = Field {
    place: 1008,
    size: 16,
};
/// A pointer and 366 day slots.
pub const DAYS: Field = Field {
    place: 1024,
    size: 2_114_020,
};
/// A pointer and 2048 insertions of 129 bytes.
pub const INSERTIONS: Field = Field {
    place: 2_115_044,
    size: 264_196,
};
/// A pointer and 255 places of 28 bytes.
pub const PLACES: Field = Field {
    place: 2_379_240,
    size: 7144,
};
/// Ten events of 83 bytes for each of the types 01, 03, 04, 05, 06, 08.
pub const EVENTS: Field = Field {
    place: 2_386_384,
    size: 4980,
};
/// Ten events of over speeding of 31 bytes.
pub const OVERS: Field = Field {
    place: 2_391_364,
    size: 310,
};
/// 24 faults of 82 bytes.
pub const FAULTS: Field = Field {
    place: 2_391_674,
    size: 1968,
};
/// Zeros.
pub const SPARE_FAULTS: Field = Field {
    place: 2_393_642,
    size: 2,
};
/// The detailed speed: a pointer and 1440 blocks of 64 bytes.
pub const SPEEDS: Field = Field {
    place: 2_393_644,
    size: 92_164,
};

/// How many insertions there is room for.
pub const INSERTION_SLOTS: u32 = 2048;

/// How many places there is room for.
pub const PLACE_SLOTS: u32 = 255;

/// How many blocks of detailed speed there is room for.
pub const SPEED_SLOTS: u32 = 1440;
/// The version of an image without a rule byte.
pub const PLAIN_VERSION: u32 = 1;
/// The version of an image with a rule byte.
pub const RULED_VERSION: u32 = 2;

/// The most over speedings that are counted.
pub const MOST_OVERS: u32 = 255;

/// How many day slots there are.
pub const DAY_SLOTS: u32 = 366;

/// How many bytes a day slot has.
pub const DAY_SLOT_SIZE: u32 = 5776;
/// How many words a day slot has room for.
pub const DAY_WORD_LIMIT: u32 = 2880;

/// In a day slot: its date, a time in seconds that is a multiple of 86400; 0 in an empty slot.
pub const DAY_DATE: Field = Field { place: 0, size: 4 };
/// In a day slot: the odometer when the day was begun.
pub const DAY_ODOMETER: Field = Field { place: 4, size: 4 };
/// In a day slot: how many words it has.
pub const DAY_COUNT: Field = Field { place: 8, size: 2 };
/// In a day slot: zeros.
pub const DAY_SPARE: Field = Field { place: 10, size: 6 };
/// In a day slot: the words, of two bytes each.
pub const DAY_WORDS: Field = Field {
    place: 16,
    size: 5760,
};

/// In a word: an activity counts so much, and the minute lies below (Annex IB, Appendix 1, ActivityChangeInfo).
pub const WORD_MINUTES: u32 = 2048;
/// In a word: the co-driver's slot counts so much.
pub const WORD_SLOT: u32 = 32768;

/// How many owed rows there are.
pub const OWED_ROWS: u32 = 8;

/// How many bytes an owed row has.
pub const OWED_ROW_SIZE: u32 = 48;
/// How many cells an owed row has.
pub const CELLS: u32 = 4;

/// How many bytes a cell has.
pub const CELL_SIZE: u32 = 6;

/// In an owed row: the session time of its card; 0 in an empty row.
pub const ROW_SESSION: Field = Field { place: 0, size: 4 };
/// In an owed row: the card number.
pub const ROW_NUMBER: Field = Field { place: 4, size: 18 };
/// In an owed row: zeros.
pub const ROW_SPARE: Field = Field { place: 22, size: 2 };
/// In an owed row: the cells; that of minute m is m modulo 4.
pub const ROW_CELLS: Field = Field {
    place: 24,
    size: 24,
};
/// In a cell: the minute; 0 in an empty cell.
pub const CELL_MINUTE: Field = Field { place: 0, size: 4 };
/// In a cell: the word.
pub const CELL_WORD: Field = Field { place: 4, size: 2 };

/// The last minute since 1970-01-01 00:00 GMT that the unit may keep: the last one whose first second has a time.
pub const LAST_MINUTE: u32 = activity_codec::LAST_MINUTE;

/// The highest odometer in km that it may hold.
pub const HIGHEST_ODOMETER: u32 = 9_999_999;

/// Where the day slot of an index begins.
pub fn slot_place(index: u32) -> u32
    requires { index < DAY_SLOTS }
    ensures { result ≡ slot_place index }
{
    DAYS.place + 4 + index * DAY_SLOT_SIZE
}

/// Where the cell of a number begins, counted over all rows.
pub fn cell_place(nth: u32) -> u32
    requires { nth < 32 }
    ensures place { result ≡ cell_place nth }
    ensures below { result ≤ 1002 }
{
    OWED.place + nth / CELLS * OWED_ROW_SIZE + ROW_CELLS.place + nth % CELLS * CELL_SIZE
}
