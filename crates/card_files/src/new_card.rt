//! The flat image of a new card, as its maker issues it.
ghost use Rattle.std.specs.Prelude.{◌≡◌, ◌+◌, ◌^◌, ◌<◌, ◌++◌, length, replicate, IfOk, OnOk, vec_len, slice_range};
ghost use Rattle.std.specs.Prelude.{Some};
ghost use Rattle.card_files.specs.declared.new_card.TheConstants.{IDENTIFICATION_SIZE};
ghost use Rattle.byteorder.specs.Endian.{big_bytes};
ghost use Rattle.card_layout.specs.Application.{application_bytes};
ghost use Rattle.card_layout.specs.Files.{image_size_of};
ghost use Rattle.card_files.specs.NewCard.{new_card, new_contents, new_size, identification_bytes, validity_bytes};

use crate::table::{files, image_size};
use byteorder::{BigEndian, ByteOrder};
use card_layout::{Application, CardFile, Fid};
use std::alloc::Global;
use tach_media::Memory;
use tacho_types::{Name36, Nation, TimeReal, write_name, write_time};

/// Who issued a card, its number, and its holder (Appendix 1, CardIdentification and CardHolderName).
#[derive(Clone, Copy, Debug, PartialEq, Eq)]
pub struct CardIdentity {
    /// The issuing state.
    pub state: Nation,
    /// The card's number with its two indices.
    pub number: [u8; 16],
    /// The holder's surname.
    pub surname: Name36,
    /// The holder's first names.
    pub first: Name36,
}

/// The size of Application_Identification in bytes.
const APPLICATION_SIZE: usize = 10;

/// The size of Identification in bytes.
const IDENTIFICATION_SIZE: usize = 143;

/// The time at which a new card is issued and becomes valid: 2009-01-01 00:00:00 (profile).
const BEGIN: TimeReal = TimeReal(1_230_768_000);

/// The last second in which a new card is valid: 2013-12-31 23:59:59 (profile).
const EXPIRY: TimeReal = TimeReal(1_388_534_399);

/// A name of spaces with code page 1.
const BLANK: Name36 = Name36([
    1, 32, 32, 32, 32, 32, 32, 32, 32, 32, 32, 32, 32, 32, 32, 32, 32, 32, 32, 32, 32, 32, 32, 32,
    32, 32, 32, 32, 32, 32, 32, 32, 32, 32, 32, 32,
]);

/// The flat image of a new card of these sizes: Application_Identification, Identification, and zeros in every other
/// file.
///
/// # Errors
///
/// `Memory` where memory runs out.
pub fn blank_card(
    alloc: Global,
    identity: &CardIdentity,
    app: &Application,
) -> Result<Vec<u8>, Memory>
    ensures image { IfOk result (λ image. image.items ≡ new_card identity.now app.now) }
    ensures size { IfOk result (λ image. vec_len image ≡ image_size_of app.now) }
{
    let mut image = Vec::with_capacity(alloc, image_size(app) as usize)?;
    for file in files(app) {
        push_file(&mut image, file, identity, app)?;
    }
    Ok(image)
}

/// One more file of a new card.
fn push_file(
    image: &mut Vec<u8>,
    file: CardFile,
    identity: &CardIdentity,
    app: &Application,
) -> Result<(), Memory>
    ensures contents { OnOk result (image.new.items ≡ image.old.items ++ new_contents identity.now app.now file) }
    ensures size { OnOk result (vec_len image.new ≡ vec_len image.old + new_size file) }
{
    if file.fid.0 == Fid::APPLICATION.0 {
        let mut bytes = [0; APPLICATION_SIZE];
        write_application(app, &mut bytes);
        image.extend_from_slice(&bytes)?;
    } else if file.fid.0 == Fid::IDENTIFICATION.0 {
        let mut bytes = [0; IDENTIFICATION_SIZE];
        write_identification(identity, &mut bytes);
        image.extend_from_slice(&bytes)?;
    } else {
        push_zeros(image, file.size)?;
    }
    Ok(())
}

/// So many zeros at the end.
fn push_zeros(image: &mut Vec<u8>, count: u32) -> Result<(), Memory>
    ensures contents { OnOk result (image.new.items ≡ image.old.items ++ replicate count 0) }
    ensures size { OnOk result (vec_len image.new ≡ vec_len image.old + count) }
{
    image.resize(image.len() + count as usize, 0)?;
    Ok(())
}

/// Writes the fields of Application_Identification in their order.
#[tactic(auto, unfolding(card_layout::specs::Application::application_bytes))]
fn write_application(app: &Application, out: &mut [u8])
    requires { length out.old ≡ 10 }
    ensures { out.new ≡ application_bytes app.now }
{
    let (kind, out) = out.split_at_mut(1);
    write_byte(1, kind);
    let (structure, out) = out.split_at_mut(2);
    write_number(app.structure, structure);
    let (events, out) = out.split_at_mut(1);
    write_byte(app.events, events);
    let (faults, out) = out.split_at_mut(1);
    write_byte(app.faults, faults);
    let (activity, out) = out.split_at_mut(2);
    write_number(app.activity, activity);
    let (vehicles, places) = out.split_at_mut(2);
    write_number(app.vehicles, vehicles);
    write_byte(app.places, places);
}

/// Writes a number into a field of one byte.
fn write_byte(n: u8, out: &mut [u8])
    requires { length out.old ≡ 1 }
    ensures { out.new ≡ big_bytes 1 n }
{
    out.copy_from_slice(&[n]);
}

/// Writes a number into a field of two bytes.
fn write_number(n: u16, out: &mut [u8])
    requires { length out.old ≡ 2 }
    ensures { out.new ≡ big_bytes 2 n }
{
    BigEndian::write_u16(out, n);
}

/// Writes the fields of Identification in their order.
#[tactic(auto, unfolding(crate::specs::NewCard::identification_bytes))]
fn write_identification(identity: &CardIdentity, out: &mut [u8])
    requires { length out.old ≡ IDENTIFICATION_SIZE }
    ensures { out.new ≡ identification_bytes identity.now }
{
    let (state, out) = out.split_at_mut(1);
    state.copy_from_slice(&[identity.state.0]);
    let (number, out) = out.split_at_mut(16);
    number.copy_from_slice(&identity.number);
    let (authority, out) = out.split_at_mut(Name36::SIZE);
    write_name(&BLANK, authority);
    let (validity, out) = out.split_at_mut(3 * TimeReal::SIZE);
    write_validity(validity);
    let (surname, out) = out.split_at_mut(Name36::SIZE);
    write_name(&identity.surname, surname);
    let (first, out) = out.split_at_mut(Name36::SIZE);
    write_name(&identity.first, first);
    let (birth_date, language) = out.split_at_mut(4);
    birth_date.copy_from_slice(&[0x19, 0x70, 0x01, 0x01]);
    language.copy_from_slice(b"en");
}

/// Writes when a new card is issued, when it becomes valid, and when it expires.
fn write_validity(out: &mut [u8])
    requires { length out.old ≡ 12 }
    ensures { out.new ≡ validity_bytes }
{
    let (issue, out) = out.split_at_mut(TimeReal::SIZE);
    write_time(BEGIN, issue);
    let (begin, expiry) = out.split_at_mut(TimeReal::SIZE);
    write_time(BEGIN, begin);
    write_time(EXPIRY, expiry);
}
