//! What the memory of a unit says of it.
ghost use Rattle.std.specs.Prelude.{◌≡◌, IfOk, OnOk, IfSome, IfErr, Some, is_err, true};
ghost use Rattle.unit_model.specs.declared.layout.TheConstants.{IMAGE_SIZE, RULE_BYTE};
ghost use Rattle.tach_media.specs.Medium.{Reads};
ghost use Rattle.unit_memory.specs.Identified.{IsIdentity, AreFacts, version_known};
ghost use Rattle.unit_model.specs.Decoding.{Decodes, first_bad_place};
ghost use Rattle.unit_model.specs.Versions.{version_of, rule_byte_by, rule_by};
ghost use Rattle.unit_model.specs.Image.{number_of};

use crate::fault::UnitFault;
use crate::format::Identity;
use crate::judge::judge_image;
use minute_model::Rule;
use std::marker::Model;
use tach_media::{Failed, Medium, read_number};
use tacho_types::Registration;
use unit_model::layout::{PLAIN_VERSION, REGISTRATION, RULE_BYTE, SPEED_LIMIT, VERSION, VIN};

/// What the memory of a unit says of it: its vehicle, its version, which is 1 or 2, and its rule byte, which is 0 for
/// version 1.
#[derive(Clone, Copy, Debug, PartialEq, Eq)]
pub struct UnitFacts {
    /// The vehicle identification number.
    pub vin: [u8; 17],
    /// The nation and the number of the registration.
    pub registration: Registration,
    /// The authorised speed in km/h, 0 to 255.
    pub limit: u8,
    /// The version of the image, 1 or 2.
    pub version: u8,
    /// Which rule of minutes holds, by version 2: 0 the original one, 1 the amended one; 0 by version 1.
    pub rule_byte: u8,
}

/// The memory of a unit, and what it says of the vehicle and the rule of minutes.
#[derive(Drop)]
pub struct UnitMemory {
    facts: UnitFacts,
}

impl Model for UnitMemory {
    ghost use Rattle.unit_memory.specs.declared.memory.UnitFacts.{UnitFacts};

    ghost Value = { UnitFacts };

    ghost view = { λ memory. memory.facts };
}

impl UnitMemory {
    ghost use Rattle.unit_memory.specs.Fault.{IfBadUnit, has_failed};

    /// Reads a memory whose image decodes; it writes nothing.
    ///
    /// # Errors
    ///
    /// `Failed` where the medium failed, and `BadUnit` with the place of the first field, in order of places, that
    /// fails.
    pub fn load<M: Medium>(unit: &mut M) -> Result<UnitMemory, UnitFault>
        requires unit { (M.state unit.old).size ≡ IMAGE_SIZE }
        ensures facts { IfOk result (λ memory. IfSome (M.state unit.old).image (AreFacts memory)) }
        ensures decodes { OnOk result (IfSome (M.state unit.old).image Decodes) }
        ensures bad { IfErr result (λ fault. IfBadUnit fault (λ p. IfSome (M.state unit.old).image
            (λ x. first_bad_place x ≡ Some p))) }
        ensures reads { Reads (M.state unit.old) (M.state unit.new) (has_failed result) }
    {
        let judged = judge_image(unit)?;
        match judged.bad {
            Some(place) => Err(UnitFault::BadUnit(place)),
            None => {
                let memory = UnitMemory::read(unit)?;
                Ok(memory)
            }
        }
    }

    /// Reads a memory whose image is known to decode, as from the load of another part of the unit: it is not judged
    /// again. It writes nothing.
    ///
    /// # Errors
    ///
    /// `Failed` where the medium failed.
    pub fn read<M: Medium>(unit: &mut M) -> Result<UnitMemory, Failed>
        requires unit { (M.state unit.old).size ≡ IMAGE_SIZE }
        requires decodes { IfSome (M.state unit.old).image Decodes }
        ensures facts { IfOk result (λ memory. IfSome (M.state unit.old).image (AreFacts memory)) }
        ensures reads { Reads (M.state unit.old) (M.state unit.new) (is_err result) }
    {
        let identity = read_identity(unit)?;
        let version = read_version(unit)?;
        let rule_byte = read_rule_byte(unit, version)?;
        Ok(UnitMemory {
            facts: facts_of(identity, version, rule_byte),
        })
    }

    /// What the unit was told of its vehicle.
    pub fn identity(&self) -> Identity
        ensures { result ≡ record { vin = self.now.vin; registration = self.now.registration; limit = self.now.limit } }
    {
        let vin = self.facts.vin;
        Identity {
            vin,
            registration: self.facts.registration,
            limit: self.facts.limit,
        }
    }

    /// The version of the image, 1 or 2.
    pub fn version(&self) -> u8
        ensures { result ≡ self.now.version }
    {
        self.facts.version
    }

    /// The rule byte: 0 for the original rule and for version 1, 1 for the amended rule.
    pub fn rule_byte(&self) -> u8
        ensures { result ≡ self.now.rule_byte }
    {
        self.facts.rule_byte
    }

    /// The rule of minutes by which a run of this unit goes.
    pub fn rule(&self) -> Rule
        ensures { result ≡ rule_by self.now.rule_byte }
    {
        if self.facts.rule_byte == 1 {
            Rule::Amended
        } else {
            Rule::Original
        }
    }
}

/// What is said of a unit, together.
fn facts_of(identity: Identity, version: u8, rule_byte: u8) -> UnitFacts
    ensures { result ≡ record {
      vin = identity.vin;
      registration = identity.registration;
      limit = identity.limit;
      version = version;
      rule_byte = rule_byte;
    } }
{
    let vin = identity.vin;
    UnitFacts {
        vin,
        registration: identity.registration,
        limit: identity.limit,
        version,
        rule_byte,
    }
}

/// Reads what the unit was told of its vehicle.
fn read_identity<M: Medium>(unit: &mut M) -> Result<Identity, Failed>
    requires unit { (M.state unit.old).size ≡ IMAGE_SIZE }
    ensures identity { IfOk result (λ identity. IfSome (M.state unit.old).image (IsIdentity identity)) }
    ensures reads { Reads (M.state unit.old) (M.state unit.new) (is_err result) }
{
    let mut vin = [0; 17];
    unit.read_at(VIN.place, &mut vin)?;
    let mut registration = [0; 15];
    unit.read_at(REGISTRATION.place, &mut registration)?;
    let mut limit = [0; 1];
    unit.read_at(SPEED_LIMIT.place, &mut limit)?;
    Ok(Identity {
        vin,
        registration: Registration(registration),
        limit: limit[0],
    })
}

/// Reads the version of an image that decodes.
fn read_version<M: Medium>(unit: &mut M) -> Result<u8, Failed>
    requires works { (M.state unit.old).works ≡ true }
    requires unit { (M.state unit.old).size ≡ IMAGE_SIZE }
    requires decodes { IfSome (M.state unit.old).image Decodes }
    ensures version { IfOk result (λ version. IfSome (M.state unit.old).image (λ x. version ≡ version_of x)) }
    ensures reads { Reads (M.state unit.old) (M.state unit.new) (is_err result) }
{
    let version = read_number(unit, VERSION.place, VERSION.size)?;
    Ok(version_known(version))
}

/// The version of an image that decodes, by its number.
fn version_known(version: u32) -> u8
    ensures { result ≡ version_known version }
{
    if version == PLAIN_VERSION { 1 } else { 2 }
}

/// Reads the rule byte of an image of this version.
fn read_rule_byte<M: Medium>(unit: &mut M, version: u8) -> Result<u8, Failed>
    requires works { (M.state unit.old).works ≡ true }
    requires unit { (M.state unit.old).size ≡ IMAGE_SIZE }
    ensures rule_byte { IfOk result (λ byte. IfSome (M.state unit.old).image
        (λ x. byte ≡ rule_byte_by version (number_of x RULE_BYTE))) }
    ensures reads { Reads (M.state unit.old) (M.state unit.new) (is_err result) }
{
    let mut byte = [0; 1];
    unit.read_at(RULE_BYTE.place, &mut byte)?;
    Ok(if version == 2 { byte[0] } else { 0 })
}
