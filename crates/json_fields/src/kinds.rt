//! The kinds of records, each with its table.
ghost use Rattle.std.specs.Prelude.{◌≡◌, ◌<◌};
ghost use Rattle.json_fields.specs.Shown.{AreFields, AreNamed, width_of_record};
ghost use Rattle.json_fields.specs.Kinds.{fields_of};

use crate::fields::Field;
use crate::tables::{
    ADJUSTMENT, APPLICATION, CALIBRATION, CARD_CERTIFICATE, CARD_CONTROL, CARD_EVENT, CARD_FAULT,
    CARD_PLACE, CERTIFICATES, CONDITION, CONTROL, CURRENT_USE, DAILY_RECORD, DAY, DOWNLOAD, IC,
    ICC, IDENTIFICATION, INSERTION, LICENCE, LOCK, OVERSPEED, OVERSPEED_CONTROL, SENSOR, SIGNATURE,
    SPEED_BLOCK, UNIT_EVENT, UNIT_FAULT, UNIT_IDENTIFICATION, UNIT_PLACE, VEHICLE, VEHICLE_OF_UNIT,
};

/// A kind of record.
#[derive(Clone, Copy)]
pub enum Kind {
    /// The certificates of the overview.
    Certificates,
    /// What the overview tells of the vehicle and the unit.
    VehicleOfUnit,
    /// VuCompanyLocksRecord.
    Lock,
    /// VuControlActivityRecord.
    Control,
    /// The signature of a message.
    Signature,
    /// What begins the activities of a day.
    Day,
    /// VuCardIWRecord.
    Insertion,
    /// VuPlaceDailyWorkPeriodRecord.
    UnitPlace,
    /// SpecificConditionRecord.
    Condition,
    /// VuFaultRecord.
    UnitFault,
    /// VuEventRecord.
    UnitEvent,
    /// VuOverSpeedingControlData.
    OverspeedControl,
    /// VuOverSpeedingEventRecord.
    Overspeed,
    /// VuTimeAdjustmentRecord.
    Adjustment,
    /// VuDetailedSpeedBlock.
    SpeedBlock,
    /// VuIdentification.
    UnitIdentification,
    /// SensorPaired.
    Sensor,
    /// VuCalibrationRecord.
    Calibration,
    /// CardIccIdentification.
    Icc,
    /// CardChipIdentification.
    Ic,
    /// DriverCardApplicationIdentification.
    ApplicationIdentification,
    /// A certificate of a card.
    CardCertificate,
    /// CardIdentification and DriverCardHolderIdentification.
    Identification,
    /// CardDownload.
    CardDownload,
    /// CardDrivingLicenceInformation.
    Licence,
    /// CardEventRecord.
    CardEvent,
    /// CardFaultRecord.
    CardFault,
    /// CardVehicleRecord.
    Vehicle,
    /// PlaceRecord.
    CardPlace,
    /// CardCurrentUse.
    CurrentUse,
    /// What begins a CardActivityDailyRecord.
    DailyRecord,
    /// CardControlActivityDataRecord.
    CardControl,
}

impl Kind {
    /// Its fields.
    pub fn fields(self) -> &'static [Field]
        ensures fields { result.now ≡ fields_of self }
        ensures table { AreFields result.now }
        ensures named { AreNamed result.now }
    {
        match self {
            Kind::Certificates => &CERTIFICATES,
            Kind::VehicleOfUnit => &VEHICLE_OF_UNIT,
            Kind::Lock => &LOCK,
            Kind::Control => &CONTROL,
            Kind::Signature => &SIGNATURE,
            Kind::Day => &DAY,
            Kind::Insertion => &INSERTION,
            Kind::UnitPlace => &UNIT_PLACE,
            Kind::Condition => &CONDITION,
            Kind::UnitFault => &UNIT_FAULT,
            Kind::UnitEvent => &UNIT_EVENT,
            Kind::OverspeedControl => &OVERSPEED_CONTROL,
            Kind::Overspeed => &OVERSPEED,
            Kind::Adjustment => &ADJUSTMENT,
            Kind::SpeedBlock => &SPEED_BLOCK,
            Kind::UnitIdentification => &UNIT_IDENTIFICATION,
            Kind::Sensor => &SENSOR,
            Kind::Calibration => &CALIBRATION,
            Kind::Icc => &ICC,
            Kind::Ic => &IC,
            Kind::ApplicationIdentification => &APPLICATION,
            Kind::CardCertificate => &CARD_CERTIFICATE,
            Kind::Identification => &IDENTIFICATION,
            Kind::CardDownload => &DOWNLOAD,
            Kind::Licence => &LICENCE,
            Kind::CardEvent => &CARD_EVENT,
            Kind::CardFault => &CARD_FAULT,
            Kind::Vehicle => &VEHICLE,
            Kind::CardPlace => &CARD_PLACE,
            Kind::CurrentUse => &CURRENT_USE,
            Kind::DailyRecord => &DAILY_RECORD,
            Kind::CardControl => &CARD_CONTROL,
        }
    }

    /// How many bytes a record of it has.
    pub fn width(self) -> usize
        ensures width { result ≡ width_of_record (fields_of self) }
        ensures some { 0 < result }
        ensures few { result < 1000 }
    {
        match self {
            Kind::Certificates => 388,
            Kind::VehicleOfUnit => 103,
            Kind::Lock => 98,
            Kind::Control => 31,
            Kind::Signature => 128,
            Kind::Day => 7,
            Kind::Insertion => 129,
            Kind::UnitPlace => 28,
            Kind::Condition => 5,
            Kind::UnitFault => 82,
            Kind::UnitEvent => 83,
            Kind::OverspeedControl => 9,
            Kind::Overspeed => 31,
            Kind::Adjustment => 98,
            Kind::SpeedBlock => 64,
            Kind::UnitIdentification => 116,
            Kind::Sensor => 20,
            Kind::Calibration => 167,
            Kind::Icc => 25,
            Kind::Ic => 8,
            Kind::ApplicationIdentification => 10,
            Kind::CardCertificate => 194,
            Kind::Identification => 143,
            Kind::CardDownload => 4,
            Kind::Licence => 53,
            Kind::CardEvent => 24,
            Kind::CardFault => 24,
            Kind::Vehicle => 31,
            Kind::CardPlace => 10,
            Kind::CurrentUse => 19,
            Kind::DailyRecord => 12,
            Kind::CardControl => 46,
        }
    }
}
