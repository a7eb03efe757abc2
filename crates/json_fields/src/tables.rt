//! The tables of the records of a unit file and of a card file (Annex IB, Appendix 1).
use crate::codes::Coding;
use crate::fields::{Field, Form, Group};
use crate::names::Name;

/// VuDownloadablePeriod.
pub const DOWNLOADABLE_PERIOD: [Field; 2] = [
    Field {
        name: Name::MinDownloadableTime,
        width: 4,
        form: Form::Time,
    },
    Field {
        name: Name::MaxDownloadableTime,
        width: 4,
        form: Form::Time,
    },
];

/// VuDownloadActivityData.
pub const DOWNLOAD_ACTIVITY: [Field; 3] = [
    Field {
        name: Name::DownloadingTime,
        width: 4,
        form: Form::Time,
    },
    Field {
        name: Name::FullCardNumber,
        width: 18,
        form: Form::Card,
    },
    Field {
        name: Name::CompanyOrWorkshopName,
        width: 36,
        form: Form::Text,
    },
];

/// PreviousVehicleInfo.
pub const PREVIOUS_VEHICLE: [Field; 2] = [
    Field {
        name: Name::VehicleRegistrationIdentification,
        width: 15,
        form: Form::Registration,
    },
    Field {
        name: Name::CardWithdrawalTime,
        width: 4,
        form: Form::Time,
    },
];

/// PlaceRecord.
pub const PLACE: [Field; 5] = [
    Field {
        name: Name::EntryTime,
        width: 4,
        form: Form::Time,
    },
    Field {
        name: Name::EntryTypeDailyWorkPeriod,
        width: 1,
        form: Form::Coded(Coding::DailyWorkPeriod),
    },
    Field {
        name: Name::DailyWorkPeriodCountry,
        width: 1,
        form: Form::Coded(Coding::Nation),
    },
    Field {
        name: Name::DailyWorkPeriodRegion,
        width: 1,
        form: Form::Number,
    },
    Field {
        name: Name::VehicleOdometerValue,
        width: 3,
        form: Form::Number,
    },
];

/// VuSoftwareIdentification.
pub const SOFTWARE: [Field; 2] = [
    Field {
        name: Name::VuSoftwareVersion,
        width: 4,
        form: Form::Characters,
    },
    Field {
        name: Name::VuSoftInstallationDate,
        width: 4,
        form: Form::Time,
    },
];

/// CardIdentification.
pub const CARD_IDENTIFICATION: [Field; 6] = [
    Field {
        name: Name::CardIssuingMemberState,
        width: 1,
        form: Form::Coded(Coding::Nation),
    },
    Field {
        name: Name::CardNumber,
        width: 16,
        form: Form::Characters,
    },
    Field {
        name: Name::CardIssuingAuthorityName,
        width: 36,
        form: Form::Text,
    },
    Field {
        name: Name::CardIssueDate,
        width: 4,
        form: Form::Time,
    },
    Field {
        name: Name::CardValidityBegin,
        width: 4,
        form: Form::Time,
    },
    Field {
        name: Name::CardExpiryDate,
        width: 4,
        form: Form::Time,
    },
];

/// DriverCardHolderIdentification.
pub const HOLDER_IDENTIFICATION: [Field; 3] = [
    Field {
        name: Name::CardHolderName,
        width: 72,
        form: Form::HolderName,
    },
    Field {
        name: Name::CardHolderBirthDate,
        width: 4,
        form: Form::Bytes,
    },
    Field {
        name: Name::CardHolderPreferredLanguage,
        width: 2,
        form: Form::Characters,
    },
];

/// The certificates of the overview.
pub const CERTIFICATES: [Field; 2] = [
    Field {
        name: Name::MemberStateCertificate,
        width: 194,
        form: Form::Bytes,
    },
    Field {
        name: Name::VuCertificate,
        width: 194,
        form: Form::Bytes,
    },
];

/// What the overview tells of the vehicle and the unit.
pub const VEHICLE_OF_UNIT: [Field; 6] = [
    Field {
        name: Name::VehicleIdentificationNumber,
        width: 17,
        form: Form::Characters,
    },
    Field {
        name: Name::VehicleRegistrationIdentification,
        width: 15,
        form: Form::Registration,
    },
    Field {
        name: Name::CurrentDateTime,
        width: 4,
        form: Form::Time,
    },
    Field {
        name: Name::VuDownloadablePeriod,
        width: 8,
        form: Form::Group(Group::DownloadablePeriod),
    },
    Field {
        name: Name::CardSlotsStatus,
        width: 1,
        form: Form::Number,
    },
    Field {
        name: Name::VuDownloadActivityData,
        width: 58,
        form: Form::Group(Group::DownloadActivity),
    },
];

/// VuCompanyLocksRecord.
pub const LOCK: [Field; 5] = [
    Field {
        name: Name::LockInTime,
        width: 4,
        form: Form::Time,
    },
    Field {
        name: Name::LockOutTime,
        width: 4,
        form: Form::Time,
    },
    Field {
        name: Name::CompanyName,
        width: 36,
        form: Form::Text,
    },
    Field {
        name: Name::CompanyAddress,
        width: 36,
        form: Form::Text,
    },
    Field {
        name: Name::CompanyCardNumber,
        width: 18,
        form: Form::Card,
    },
];

/// VuControlActivityRecord.
pub const CONTROL: [Field; 5] = [
    Field {
        name: Name::ControlType,
        width: 1,
        form: Form::Number,
    },
    Field {
        name: Name::ControlTime,
        width: 4,
        form: Form::Time,
    },
    Field {
        name: Name::ControlCardNumber,
        width: 18,
        form: Form::Card,
    },
    Field {
        name: Name::DownloadPeriodBeginDate,
        width: 4,
        form: Form::Time,
    },
    Field {
        name: Name::DownloadPeriodEndDate,
        width: 4,
        form: Form::Time,
    },
];

/// The signature of a message.
pub const SIGNATURE: [Field; 1] = [Field {
    name: Name::Signature,
    width: 128,
    form: Form::Bytes,
}];

/// What begins the activities of a day.
pub const DAY: [Field; 2] = [
    Field {
        name: Name::TimeReal,
        width: 4,
        form: Form::Time,
    },
    Field {
        name: Name::OdometerValueMidnight,
        width: 3,
        form: Form::Number,
    },
];

/// VuCardIWRecord.
pub const INSERTION: [Field; 10] = [
    Field {
        name: Name::CardHolderName,
        width: 72,
        form: Form::HolderName,
    },
    Field {
        name: Name::FullCardNumber,
        width: 18,
        form: Form::Card,
    },
    Field {
        name: Name::CardExpiryDate,
        width: 4,
        form: Form::Time,
    },
    Field {
        name: Name::CardInsertionTime,
        width: 4,
        form: Form::Time,
    },
    Field {
        name: Name::VehicleOdometerValueAtInsertion,
        width: 3,
        form: Form::Number,
    },
    Field {
        name: Name::CardSlotNumber,
        width: 1,
        form: Form::Coded(Coding::Slot),
    },
    Field {
        name: Name::CardWithdrawalTime,
        width: 4,
        form: Form::Time,
    },
    Field {
        name: Name::VehicleOdometerValueAtWithdrawal,
        width: 3,
        form: Form::Number,
    },
    Field {
        name: Name::PreviousVehicleInfo,
        width: 19,
        form: Form::Group(Group::PreviousVehicle),
    },
    Field {
        name: Name::ManualInputFlag,
        width: 1,
        form: Form::Coded(Coding::ManualInput),
    },
];

/// VuPlaceDailyWorkPeriodRecord.
pub const UNIT_PLACE: [Field; 2] = [
    Field {
        name: Name::FullCardNumber,
        width: 18,
        form: Form::Card,
    },
    Field {
        name: Name::PlaceRecord,
        width: 10,
        form: Form::Group(Group::Place),
    },
];

/// SpecificConditionRecord.
pub const CONDITION: [Field; 2] = [
    Field {
        name: Name::EntryTime,
        width: 4,
        form: Form::Time,
    },
    Field {
        name: Name::SpecificConditionType,
        width: 1,
        form: Form::Coded(Coding::SpecificCondition),
    },
];

/// VuFaultRecord.
pub const UNIT_FAULT: [Field; 8] = [
    Field {
        name: Name::FaultType,
        width: 1,
        form: Form::Coded(Coding::EventFault),
    },
    Field {
        name: Name::FaultRecordPurpose,
        width: 1,
        form: Form::Coded(Coding::RecordPurpose),
    },
    Field {
        name: Name::FaultBeginTime,
        width: 4,
        form: Form::Time,
    },
    Field {
        name: Name::FaultEndTime,
        width: 4,
        form: Form::Time,
    },
    Field {
        name: Name::CardNumberDriverSlotBegin,
        width: 18,
        form: Form::Card,
    },
    Field {
        name: Name::CardNumberCodriverSlotBegin,
        width: 18,
        form: Form::Card,
    },
    Field {
        name: Name::CardNumberDriverSlotEnd,
        width: 18,
        form: Form::Card,
    },
    Field {
        name: Name::CardNumberCodriverSlotEnd,
        width: 18,
        form: Form::Card,
    },
];

/// VuEventRecord.
pub const UNIT_EVENT: [Field; 9] = [
    Field {
        name: Name::EventType,
        width: 1,
        form: Form::Coded(Coding::EventFault),
    },
    Field {
        name: Name::EventRecordPurpose,
        width: 1,
        form: Form::Coded(Coding::RecordPurpose),
    },
    Field {
        name: Name::EventBeginTime,
        width: 4,
        form: Form::Time,
    },
    Field {
        name: Name::EventEndTime,
        width: 4,
        form: Form::Time,
    },
    Field {
        name: Name::CardNumberDriverSlotBegin,
        width: 18,
        form: Form::Card,
    },
    Field {
        name: Name::CardNumberCodriverSlotBegin,
        width: 18,
        form: Form::Card,
    },
    Field {
        name: Name::CardNumberDriverSlotEnd,
        width: 18,
        form: Form::Card,
    },
    Field {
        name: Name::CardNumberCodriverSlotEnd,
        width: 18,
        form: Form::Card,
    },
    Field {
        name: Name::SimilarEventsNumber,
        width: 1,
        form: Form::Number,
    },
];

/// VuOverSpeedingControlData.
pub const OVERSPEED_CONTROL: [Field; 3] = [
    Field {
        name: Name::LastOverspeedControlTime,
        width: 4,
        form: Form::Time,
    },
    Field {
        name: Name::FirstOverspeedSince,
        width: 4,
        form: Form::Time,
    },
    Field {
        name: Name::NumberOfOverspeedSince,
        width: 1,
        form: Form::Number,
    },
];

/// VuOverSpeedingEventRecord.
pub const OVERSPEED: [Field; 8] = [
    Field {
        name: Name::EventType,
        width: 1,
        form: Form::Coded(Coding::EventFault),
    },
    Field {
        name: Name::EventRecordPurpose,
        width: 1,
        form: Form::Coded(Coding::RecordPurpose),
    },
    Field {
        name: Name::EventBeginTime,
        width: 4,
        form: Form::Time,
    },
    Field {
        name: Name::EventEndTime,
        width: 4,
        form: Form::Time,
    },
    Field {
        name: Name::MaxSpeedValue,
        width: 1,
        form: Form::Number,
    },
    Field {
        name: Name::AverageSpeedValue,
        width: 1,
        form: Form::Number,
    },
    Field {
        name: Name::CardNumberDriverSlotBegin,
        width: 18,
        form: Form::Card,
    },
    Field {
        name: Name::SimilarEventsNumber,
        width: 1,
        form: Form::Number,
    },
];

/// VuTimeAdjustmentRecord.
pub const ADJUSTMENT: [Field; 5] = [
    Field {
        name: Name::OldTimeValue,
        width: 4,
        form: Form::Time,
    },
    Field {
        name: Name::NewTimeValue,
        width: 4,
        form: Form::Time,
    },
    Field {
        name: Name::WorkshopName,
        width: 36,
        form: Form::Text,
    },
    Field {
        name: Name::WorkshopAddress,
        width: 36,
        form: Form::Text,
    },
    Field {
        name: Name::WorkshopCardNumber,
        width: 18,
        form: Form::Card,
    },
];

/// VuDetailedSpeedBlock.
pub const SPEED_BLOCK: [Field; 2] = [
    Field {
        name: Name::SpeedBlockBeginDate,
        width: 4,
        form: Form::Time,
    },
    Field {
        name: Name::SpeedsPerSecond,
        width: 60,
        form: Form::Numbers,
    },
];

/// VuIdentification.
pub const UNIT_IDENTIFICATION: [Field; 7] = [
    Field {
        name: Name::VuManufacturerName,
        width: 36,
        form: Form::Text,
    },
    Field {
        name: Name::VuManufacturerAddress,
        width: 36,
        form: Form::Text,
    },
    Field {
        name: Name::VuPartNumber,
        width: 16,
        form: Form::Characters,
    },
    Field {
        name: Name::VuSerialNumber,
        width: 8,
        form: Form::Bytes,
    },
    Field {
        name: Name::VuSoftwareIdentification,
        width: 8,
        form: Form::Group(Group::Software),
    },
    Field {
        name: Name::VuManufacturingDate,
        width: 4,
        form: Form::Time,
    },
    Field {
        name: Name::VuApprovalNumber,
        width: 8,
        form: Form::Characters,
    },
];

/// SensorPaired.
pub const SENSOR: [Field; 3] = [
    Field {
        name: Name::SensorSerialNumber,
        width: 8,
        form: Form::Bytes,
    },
    Field {
        name: Name::SensorApprovalNumber,
        width: 8,
        form: Form::Characters,
    },
    Field {
        name: Name::SensorPairingDateFirst,
        width: 4,
        form: Form::Time,
    },
];

/// VuCalibrationRecord.
pub const CALIBRATION: [Field; 17] = [
    Field {
        name: Name::CalibrationPurpose,
        width: 1,
        form: Form::Coded(Coding::Calibration),
    },
    Field {
        name: Name::WorkshopName,
        width: 36,
        form: Form::Text,
    },
    Field {
        name: Name::WorkshopAddress,
        width: 36,
        form: Form::Text,
    },
    Field {
        name: Name::WorkshopCardNumber,
        width: 18,
        form: Form::Card,
    },
    Field {
        name: Name::WorkshopCardExpiryDate,
        width: 4,
        form: Form::Time,
    },
    Field {
        name: Name::VehicleIdentificationNumber,
        width: 17,
        form: Form::Characters,
    },
    Field {
        name: Name::VehicleRegistrationIdentification,
        width: 15,
        form: Form::Registration,
    },
    Field {
        name: Name::WVehicleCharacteristicConstant,
        width: 2,
        form: Form::Number,
    },
    Field {
        name: Name::KConstantOfRecordingEquipment,
        width: 2,
        form: Form::Number,
    },
    Field {
        name: Name::LTyreCircumference,
        width: 2,
        form: Form::Number,
    },
    Field {
        name: Name::TyreSize,
        width: 15,
        form: Form::Characters,
    },
    Field {
        name: Name::AuthorisedSpeed,
        width: 1,
        form: Form::Number,
    },
    Field {
        name: Name::OldOdometerValue,
        width: 3,
        form: Form::Number,
    },
    Field {
        name: Name::NewOdometerValue,
        width: 3,
        form: Form::Number,
    },
    Field {
        name: Name::OldTimeValue,
        width: 4,
        form: Form::Time,
    },
    Field {
        name: Name::NewTimeValue,
        width: 4,
        form: Form::Time,
    },
    Field {
        name: Name::NextCalibrationDate,
        width: 4,
        form: Form::Time,
    },
];

/// CardIccIdentification.
pub const ICC: [Field; 6] = [
    Field {
        name: Name::ClockStop,
        width: 1,
        form: Form::Number,
    },
    Field {
        name: Name::CardExtendedSerialNumber,
        width: 8,
        form: Form::Bytes,
    },
    Field {
        name: Name::CardApprovalNumber,
        width: 8,
        form: Form::Characters,
    },
    Field {
        name: Name::CardPersonaliserId,
        width: 1,
        form: Form::Number,
    },
    Field {
        name: Name::EmbedderIcAssemblerId,
        width: 5,
        form: Form::Bytes,
    },
    Field {
        name: Name::IcIdentifier,
        width: 2,
        form: Form::Bytes,
    },
];

/// CardChipIdentification.
pub const IC: [Field; 2] = [
    Field {
        name: Name::IcSerialNumber,
        width: 4,
        form: Form::Bytes,
    },
    Field {
        name: Name::IcManufacturingReferences,
        width: 4,
        form: Form::Bytes,
    },
];

/// DriverCardApplicationIdentification.
pub const APPLICATION: [Field; 7] = [
    Field {
        name: Name::TypeOfTachographCardId,
        width: 1,
        form: Form::Coded(Coding::Equipment),
    },
    Field {
        name: Name::CardStructureVersion,
        width: 2,
        form: Form::Bytes,
    },
    Field {
        name: Name::NoOfEventsPerType,
        width: 1,
        form: Form::Number,
    },
    Field {
        name: Name::NoOfFaultsPerType,
        width: 1,
        form: Form::Number,
    },
    Field {
        name: Name::ActivityStructureLength,
        width: 2,
        form: Form::Number,
    },
    Field {
        name: Name::NoOfCardVehicleRecords,
        width: 2,
        form: Form::Number,
    },
    Field {
        name: Name::NoOfCardPlaceRecords,
        width: 1,
        form: Form::Number,
    },
];

/// A certificate of a card.
pub const CARD_CERTIFICATE: [Field; 1] = [Field {
    name: Name::Certificate,
    width: 194,
    form: Form::Bytes,
}];

/// CardIdentification and DriverCardHolderIdentification.
pub const IDENTIFICATION: [Field; 2] = [
    Field {
        name: Name::CardIdentification,
        width: 65,
        form: Form::Group(Group::CardIdentification),
    },
    Field {
        name: Name::DriverCardHolderIdentification,
        width: 78,
        form: Form::Group(Group::HolderIdentification),
    },
];

/// CardDownload.
pub const DOWNLOAD: [Field; 1] = [Field {
    name: Name::LastCardDownload,
    width: 4,
    form: Form::Time,
}];

/// CardDrivingLicenceInformation.
pub const LICENCE: [Field; 3] = [
    Field {
        name: Name::DrivingLicenceIssuingAuthority,
        width: 36,
        form: Form::Text,
    },
    Field {
        name: Name::DrivingLicenceIssuingNation,
        width: 1,
        form: Form::Coded(Coding::Nation),
    },
    Field {
        name: Name::DrivingLicenceNumber,
        width: 16,
        form: Form::Characters,
    },
];

/// CardEventRecord.
pub const CARD_EVENT: [Field; 4] = [
    Field {
        name: Name::EventType,
        width: 1,
        form: Form::Coded(Coding::EventFault),
    },
    Field {
        name: Name::EventBeginTime,
        width: 4,
        form: Form::Time,
    },
    Field {
        name: Name::EventEndTime,
        width: 4,
        form: Form::Time,
    },
    Field {
        name: Name::EventVehicleRegistration,
        width: 15,
        form: Form::Registration,
    },
];

/// CardFaultRecord.
pub const CARD_FAULT: [Field; 4] = [
    Field {
        name: Name::FaultType,
        width: 1,
        form: Form::Coded(Coding::EventFault),
    },
    Field {
        name: Name::FaultBeginTime,
        width: 4,
        form: Form::Time,
    },
    Field {
        name: Name::FaultEndTime,
        width: 4,
        form: Form::Time,
    },
    Field {
        name: Name::FaultVehicleRegistration,
        width: 15,
        form: Form::Registration,
    },
];

/// CardVehicleRecord.
pub const VEHICLE: [Field; 6] = [
    Field {
        name: Name::VehicleOdometerBegin,
        width: 3,
        form: Form::Number,
    },
    Field {
        name: Name::VehicleOdometerEnd,
        width: 3,
        form: Form::Number,
    },
    Field {
        name: Name::VehicleFirstUse,
        width: 4,
        form: Form::Time,
    },
    Field {
        name: Name::VehicleLastUse,
        width: 4,
        form: Form::Time,
    },
    Field {
        name: Name::VehicleRegistration,
        width: 15,
        form: Form::Registration,
    },
    Field {
        name: Name::VuDataBlockCounter,
        width: 2,
        form: Form::Bytes,
    },
];

/// PlaceRecord.
pub const CARD_PLACE: [Field; 5] = [
    Field {
        name: Name::EntryTime,
        width: 4,
        form: Form::Time,
    },
    Field {
        name: Name::EntryTypeDailyWorkPeriod,
        width: 1,
        form: Form::Coded(Coding::DailyWorkPeriod),
    },
    Field {
        name: Name::DailyWorkPeriodCountry,
        width: 1,
        form: Form::Coded(Coding::Nation),
    },
    Field {
        name: Name::DailyWorkPeriodRegion,
        width: 1,
        form: Form::Number,
    },
    Field {
        name: Name::VehicleOdometerValue,
        width: 3,
        form: Form::Number,
    },
];

/// CardCurrentUse.
pub const CURRENT_USE: [Field; 2] = [
    Field {
        name: Name::SessionOpenTime,
        width: 4,
        form: Form::Time,
    },
    Field {
        name: Name::SessionOpenVehicle,
        width: 15,
        form: Form::Registration,
    },
];

/// What begins a CardActivityDailyRecord.
pub const DAILY_RECORD: [Field; 5] = [
    Field {
        name: Name::ActivityPreviousRecordLength,
        width: 2,
        form: Form::Number,
    },
    Field {
        name: Name::ActivityRecordLength,
        width: 2,
        form: Form::Number,
    },
    Field {
        name: Name::ActivityRecordDate,
        width: 4,
        form: Form::Time,
    },
    Field {
        name: Name::ActivityDailyPresenceCounter,
        width: 2,
        form: Form::Bytes,
    },
    Field {
        name: Name::ActivityDayDistance,
        width: 2,
        form: Form::Number,
    },
];

/// CardControlActivityDataRecord.
pub const CARD_CONTROL: [Field; 6] = [
    Field {
        name: Name::ControlType,
        width: 1,
        form: Form::Number,
    },
    Field {
        name: Name::ControlTime,
        width: 4,
        form: Form::Time,
    },
    Field {
        name: Name::ControlCardNumber,
        width: 18,
        form: Form::Card,
    },
    Field {
        name: Name::ControlVehicleRegistration,
        width: 15,
        form: Form::Registration,
    },
    Field {
        name: Name::ControlDownloadPeriodBegin,
        width: 4,
        form: Form::Time,
    },
    Field {
        name: Name::ControlDownloadPeriodEnd,
        width: 4,
        form: Form::Time,
    },
];
