//! A file identifier, a range of the flat image, and the sizes of a card's files.

/// The identifier of an elementary file.
#[derive(Clone, Copy, Debug, Default, PartialEq, Eq)]
pub struct Fid(pub u16);

impl Fid {
    /// Chip identification.
    pub const ICC: Fid = Fid(0x0002);
    /// Identification of the integrated circuit.
    pub const IC: Fid = Fid(0x0005);
    /// Application_Identification, which tells the sizes of the other files.
    pub const APPLICATION: Fid = Fid(0x0501);
    /// Events_Data.
    pub const EVENTS: Fid = Fid(0x0502);
    /// Faults_Data.
    pub const FAULTS: Fid = Fid(0x0503);
    /// Driver_Activity_Data, the string of days.
    pub const ACTIVITY: Fid = Fid(0x0504);
    /// Vehicles_Used.
    pub const VEHICLES: Fid = Fid(0x0505);
    /// Places.
    pub const PLACES: Fid = Fid(0x0506);
    /// Current_Usage.
    pub const CURRENT_USE: Fid = Fid(0x0507);
    /// Control_Activity_Data.
    pub const CONTROL: Fid = Fid(0x0508);
    /// Card_Download.
    pub const DOWNLOAD: Fid = Fid(0x050E);
    /// Identification of the card and of its holder.
    pub const IDENTIFICATION: Fid = Fid(0x0520);
    /// Driving_Licence_Info.
    pub const LICENCE: Fid = Fid(0x0521);
    /// Specific_Conditions.
    pub const CONDITIONS: Fid = Fid(0x0522);
    /// Card_Certificate.
    pub const CARD_CERTIFICATE: Fid = Fid(0xC100);
    /// CA_Certificate.
    pub const CA_CERTIFICATE: Fid = Fid(0xC108);
}

/// A range of the flat image: `len` bytes from place `base` on.
#[derive(Clone, Copy, Debug, Default, PartialEq, Eq)]
pub struct Range {
    pub base: u32,
    pub len: u32,
}

/// An elementary file: its identifier, its size in bytes, and whether the unit updates it.
#[derive(Clone, Copy, Debug, Default, PartialEq, Eq)]
pub struct CardFile {
    pub fid: Fid,
    pub size: u32,
    pub updated: bool,
}

/// What Application_Identification tells beside the card type, which is that of a driver card.
#[derive(Clone, Copy, Debug, Default, PartialEq, Eq)]
pub struct Application {
    /// The version of the card's structure.
    pub structure: u16,
    /// Events of each type, 6 to 12.
    pub events: u8,
    /// Faults of each type, 12 to 24.
    pub faults: u8,
    /// The length of the string of days in bytes, even, `STRING_LEAST` to `STRING_MOST`.
    pub activity: u16,
    /// Vehicle entries, 84 to 200.
    pub vehicles: u16,
    /// Place entries, 84 to 112.
    pub places: u8,
}

/// The least length of a string of days, in bytes (Appendix 1, CardActivityLengthRange).
pub const STRING_LEAST: u16 = 5544;

/// The most that it has.
pub const STRING_MOST: u16 = 13776;

/// The largest sizes that a driver card may have.
pub const LARGEST: Application = Application {
    structure: 0,
    events: 12,
    faults: 24,
    activity: STRING_MOST,
    vehicles: 200,
    places: 112,
};

/// The size in bytes of the flat image of a card of the largest sizes: no image of a driver card is larger.
pub const LARGEST_IMAGE: u32 = 24959;

/// The bytes in front of each entry of a downloaded card file: the file's identifier, 2 bytes, the kind of the entry,
/// 1, and how many bytes follow, 2 (Appendix 7, 3.4).
pub const FILE_HEAD: usize = 5;

/// Where Application_Identification stands in the flat image, at any sizes: the card type is its first byte.
pub const APPLICATION_RANGE: Range = Range { base: 33, len: 10 };
