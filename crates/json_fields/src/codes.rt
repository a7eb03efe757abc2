//! What codes of one byte stand for (Annex IB, Appendix 1).
ghost use Rattle.std.specs.Prelude.{◌≡◌, nat_le, if◌then◌else◌, codes};
ghost use Rattle.json_fields.specs.Codes.{meaning, event_fault, record_purpose, calibration, slot, manual_input};
ghost use Rattle.json_fields.specs.Codes.{daily_work_period, specific_condition, equipment, nation};

/// A data type of one byte of which some values have names.
#[derive(Clone, Copy)]
pub enum Coding {
    /// EventFaultType.
    EventFault,
    /// EventFaultRecordPurpose.
    RecordPurpose,
    /// CalibrationPurpose.
    Calibration,
    /// CardSlotNumber.
    Slot,
    /// ManualInputFlag.
    ManualInput,
    /// EntryTypeDailyWorkPeriod.
    DailyWorkPeriod,
    /// SpecificConditionType.
    SpecificCondition,
    /// EquipmentType.
    Equipment,
    /// NationNumeric, by its letters of NationAlpha.
    Nation,
}

/// EventFaultType.
fn event_fault(code: u8) -> &'static str
    ensures { result.now ≡ event_fault code }
{
    match code {
        0x00 => "noFurtherDetails",
        0x01 => "insertionOfANonValidCard",
        0x02 => "cardConflict",
        0x03 => "timeOverlap",
        0x04 => "drivingWithoutAnAppropriateCard",
        0x05 => "cardInsertionWhileDriving",
        0x06 => "lastCardSessionNotCorrectlyClosed",
        0x07 => "overSpeeding",
        0x08 => "powerSupplyInterruption",
        0x09 => "motionDataError",
        0x10 => "noFurtherDetails",
        0x11 => "motionSensorAuthenticationFailure",
        0x12 => "tachographCardAuthenticationFailure",
        0x13 => "unauthorisedChangeOfMotionSensor",
        0x14 => "cardDataInputIntegrityError",
        0x15 => "storedUserDataIntegrityError",
        0x16 => "internalDataTransferError",
        0x17 => "unauthorisedCaseOpening",
        0x18 => "hardwareSabotage",
        0x20 => "noFurtherDetails",
        0x21 => "authenticationFailure",
        0x22 => "storedDataIntegrityError",
        0x23 => "internalDataTransferError",
        0x24 => "unauthorisedCaseOpening",
        0x25 => "hardwareSabotage",
        0x30 => "noFurtherDetails",
        0x31 => "vuInternalFault",
        0x32 => "printerFault",
        0x33 => "displayFault",
        0x34 => "downloadingFault",
        0x35 => "sensorFault",
        0x40 => "noFurtherDetails",
        _ => "",
    }
}

/// EventFaultRecordPurpose.
fn record_purpose(code: u8) -> &'static str
    ensures { result.now ≡ record_purpose code }
{
    match code {
        0x00 => "oneOfThe10MostRecent",
        0x01 => "longestOfOneOfTheLast10Days",
        0x02 => "oneOfThe5LongestOverTheLast365Days",
        0x03 => "lastOfOneOfTheLast10Days",
        0x04 => "mostSeriousOfOneOfTheLast10Days",
        0x05 => "oneOfThe5MostSeriousOverTheLast365Days",
        0x06 => "firstAfterTheLastCalibration",
        0x07 => "activeOrOnGoing",
        _ => "",
    }
}

/// CalibrationPurpose.
fn calibration(code: u8) -> &'static str
    ensures { result.now ≡ calibration code }
{
    match code {
        0x00 => "reserved",
        0x01 => "activation",
        0x02 => "firstInstallation",
        0x03 => "installation",
        0x04 => "periodicInspection",
        _ => "",
    }
}

/// CardSlotNumber.
fn slot(code: u8) -> &'static str
    ensures { result.now ≡ slot code }
{
    match code {
        0x00 => "driverSlot",
        0x01 => "coDriverSlot",
        _ => "",
    }
}

/// ManualInputFlag.
fn manual_input(code: u8) -> &'static str
    ensures { result.now ≡ manual_input code }
{
    match code {
        0x00 => "noEntry",
        0x01 => "manualEntries",
        _ => "",
    }
}

/// EntryTypeDailyWorkPeriod.
fn daily_work_period(code: u8) -> &'static str
    ensures { result.now ≡ daily_work_period code }
{
    match code {
        0x00 => "begin",
        0x01 => "end",
        0x02 => "beginManuallyEntered",
        0x03 => "endManuallyEntered",
        0x04 => "beginAssumedByVu",
        0x05 => "endAssumedByVu",
        _ => "",
    }
}

/// SpecificConditionType.
fn specific_condition(code: u8) -> &'static str
    ensures { result.now ≡ specific_condition code }
{
    match code {
        0x01 => "outOfScopeBegin",
        0x02 => "outOfScopeEnd",
        0x03 => "ferryTrainCrossing",
        _ => "",
    }
}

/// EquipmentType.
fn equipment(code: u8) -> &'static str
    ensures { result.now ≡ equipment code }
{
    match code {
        0x00 => "reserved",
        0x01 => "driverCard",
        0x02 => "workshopCard",
        0x03 => "controlCard",
        0x04 => "companyCard",
        0x05 => "manufacturingCard",
        0x06 => "vehicleUnit",
        0x07 => "motionSensor",
        _ => "",
    }
}

/// NationNumeric, by its letters of NationAlpha; 0 has none. A table, a line for each code.
fn nation(code: u8) -> &'static str
    ensures { result.now ≡ nation code }
{
    match code {
        0x00 => "noInformationAvailable",
        0x01 => "A",
        0x02 => "AL",
        0x03 => "AND",
        0x04 => "ARM",
        0x05 => "AZ",
        0x06 => "B",
        0x07 => "BG",
        0x08 => "BIH",
        0x09 => "BY",
        0x0a => "CH",
        0x0b => "CY",
        0x0c => "CZ",
        0x0d => "D",
        0x0e => "DK",
        0x0f => "E",
        0x10 => "EST",
        0x11 => "F",
        0x12 => "FIN",
        0x13 => "FL",
        0x14 => "FR",
        0x15 => "UK",
        0x16 => "GE",
        0x17 => "GR",
        0x18 => "H",
        0x19 => "HR",
        0x1a => "I",
        0x1b => "IRL",
        0x1c => "IS",
        0x1d => "KZ",
        0x1e => "L",
        0x1f => "LT",
        0x20 => "LV",
        0x21 => "M",
        0x22 => "MC",
        0x23 => "MD",
        0x24 => "MK",
        0x25 => "N",
        0x26 => "NL",
        0x27 => "P",
        0x28 => "PL",
        0x29 => "RO",
        0x2a => "RSM",
        0x2b => "RUS",
        0x2c => "S",
        0x2d => "SK",
        0x2e => "SLO",
        0x2f => "TM",
        0x30 => "TR",
        0x31 => "UA",
        0x32 => "V",
        0x33 => "YU",
        0xfd => "EC",
        0xfe => "EUR",
        0xff => "WLD",
        _ => "",
    }
}

/// A code from 80 (hexadecimal) on is the manufacturer's.
fn of_manufacturer(told: &'static str, code: u8) -> &'static str
    ensures { result.now ≡ (if nat_le 0x80 code then codes "manufacturerSpecific" else told.now) }
{
    if code >= 0x80 {
        "manufacturerSpecific"
    } else {
        told
    }
}

impl Coding {
    /// What a code of it stands for: no text where the data type has no name for it.
    pub fn meaning(self, code: u8) -> &'static str
        ensures { result.now ≡ meaning self code }
    {
        match self {
            Coding::EventFault => of_manufacturer(event_fault(code), code),
            Coding::RecordPurpose => of_manufacturer(record_purpose(code), code),
            Coding::Calibration => calibration(code),
            Coding::Slot => slot(code),
            Coding::ManualInput => manual_input(code),
            Coding::DailyWorkPeriod => daily_work_period(code),
            Coding::SpecificCondition => specific_condition(code),
            Coding::Equipment => equipment(code),
            Coding::Nation => nation(code),
        }
    }
}
