use card_files::{
    Application, BadApplication, CardIdentity, Fid, blank_card, file_range, image_size,
    read_application,
};
use std::test::*;
use tacho_types::{Name36, Nation};

const LARGEST: Application = Application {
    structure: 0,
    events: 12,
    faults: 24,
    activity: 13776,
    vehicles: 200,
    places: 112,
};

const SMALLEST: Application = Application {
    structure: 0,
    events: 6,
    faults: 12,
    activity: 5544,
    vehicles: 84,
    places: 84,
};

const IDENTITY: CardIdentity = CardIdentity {
    state: Nation(17),
    number: *b"0123456789ABCDEF",
    surname: Name36([b'S'; 36]),
    first: Name36([b'F'; 36]),
};

#[test]
fn sizes_of_images(rt: HostRuntime) {
    assert_eq!(rt; image_size(&LARGEST), 24959);
    assert_eq!(rt; image_size(&SMALLEST), 11411);
}

#[test]
fn an_odd_string_length_is_bad(rt: HostRuntime) {
    let bytes = [1, 0, 0, 6, 12, 0x15, 0xA9, 0, 84, 84];
    assert_eq!(rt; read_application(&bytes), Err(BadApplication(5)));
}

#[test]
fn a_new_card_of_the_largest_sizes(rt: HostRuntime) -> Result<(), Fail> {
    let image = blank_card(rt.alloc(), &IDENTITY, &LARGEST)?;
    assert_eq!(rt; image.len(), 24959);
    let sizes = [0x01, 0x00, 0x00, 0x0C, 0x18, 0x35, 0xD0, 0x00, 0xC8, 0x70];
    assert_eq!(rt; &image[33..43], sizes.as_slice());
    let identification = file_range(&LARGEST, Fid::IDENTIFICATION).map(|r| r.base);
    assert_eq!(rt; identification, Some(24095));
    let validity = [0x49, 0x5C, 0x07, 0x80, 0x52, 0xC3, 0x5A, 0x7F];
    assert_eq!(rt; &image[24095 + 57..24095 + 65], validity.as_slice());
    Ok(())
}
