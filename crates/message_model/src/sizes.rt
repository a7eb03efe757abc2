//! The sizes of a message's records in bytes (Annex IB, Appendix 7, 2.2.6, by the types of Appendix 1). Those of the
//! unit's own fields are its layout's.

/// The last download (VuDownloadActivityData).
pub const LAST_DOWNLOAD: u32 = 58;
/// A lock of a company (VuCompanyLocksRecord).
pub const LOCK: u32 = 98;
/// A control (VuControlActivityRecord).
pub const CONTROL: u32 = 31;
/// A signature.
pub const SIGNATURE: u32 = 128;
/// An insertion of a card and its withdrawal (VuCardIWRecord).
pub const INSERTION: u32 = 129;
/// A place (VuPlaceDailyWorkPeriodRecord).
pub const PLACE: u32 = 28;
/// A specific condition (SpecificConditionRecord).
pub const CONDITION: u32 = 5;
/// A fault (VuFaultRecord).
pub const FAULT: u32 = 82;
/// An event (VuEventRecord).
pub const EVENT: u32 = 83;
/// An over speeding (VuOverSpeedingEventRecord).
pub const OVER: u32 = 31;
/// An adjustment of the time (VuTimeAdjustmentRecord).
pub const ADJUSTMENT: u32 = 98;
/// A block of speeds (VuDetailedSpeedBlock).
pub const SPEED_BLOCK: u32 = 64;
/// A calibration (VuCalibrationRecord).
pub const CALIBRATION: u32 = 167;
