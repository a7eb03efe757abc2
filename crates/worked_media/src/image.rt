use std::alloc::{AllocError, Global};
use unit_model::layout::IMAGE_SIZE;

/// Seconds of a day.
pub const DAY: u32 = 86400;

/// Puts bytes at a place, where they fit.
pub fn put(image: &mut [u8], place: usize, bytes: &[u8]) {
    if place <= image.len() && bytes.len() <= image.len() - place {
        image[place..place + bytes.len()].copy_from_slice(bytes);
    }
}

/// An image with version 1, and with this last-kept minute, odometer and pointer of the days.
pub fn empty(alloc: Global, kept: u32, odometer: u32, pointer: u32) -> Result<Vec<u8>, AllocError> {
    let mut image = vec![in alloc; 0u8; IMAGE_SIZE as usize]?;
    put(image.as_mut_slice(), 0, &[0, 0, 0, 1]);
    put(image.as_mut_slice(), 564, &kept.to_be_bytes());
    put(image.as_mut_slice(), 568, &odometer.to_be_bytes());
    put(image.as_mut_slice(), 1024, &pointer.to_be_bytes());
    Ok(image)
}

/// Puts a day of so many words in front of its words.
pub fn put_head(image: &mut [u8], index: usize, date: u32, odometer: u32, count: u16) {
    if index < 366 {
        let place = 1028 + 5776 * index;
        put(image, place, &date.to_be_bytes());
        put(image, place + 4, &odometer.to_be_bytes());
        put(image, place + 8, &count.to_be_bytes());
    }
}

/// Puts a word of a day.
pub fn put_word(image: &mut [u8], index: usize, nth: usize, word: u16) {
    if index < 366 && nth < 2880 {
        put(
            image,
            1028 + 5776 * index + 16 + 2 * nth,
            &word.to_be_bytes(),
        );
    }
}

/// A unit of 2010-02-27, 2010-02-28 and 2010-03-01, of which minute 100 of the second day is the last-kept one: the
/// third day is a later one, which a stop has left. No card until 00:10, then the driver drives and the co-driver is
/// available.
pub fn small(alloc: Global) -> Result<Vec<u8>, AllocError> {
    let mut image = empty(alloc, 14668 * 1440 + 100, 1234, 2)?;
    for index in 0..3 {
        let date = DAY * (14667 + index as u32);
        let slice = image.as_mut_slice();
        put_head(slice, index, date, 1200, if index < 2 { 4 } else { 2 });
        put_word(slice, index, 0, 0x2000);
        put_word(slice, index, 1, 0xA000);
        if index < 2 {
            put_word(slice, index, 2, 0x180A);
            put_word(slice, index, 3, 0x880A);
        }
    }
    Ok(image)
}

/// The same unit with a word behind the last-kept minute on its day, and with two owed minutes: the first is later than
/// the last-kept one, the second is that.
pub fn unmended(alloc: Global) -> Result<Vec<u8>, AllocError> {
    let mut image = small(alloc)?;
    let slice = image.as_mut_slice();
    put_word(slice, 1, 3, 0x8865);
    put(slice, 624, &[0, 0, 0, 1]);
    put(slice, 648, &21122024u32.to_be_bytes());
    put(slice, 654, &21122020u32.to_be_bytes());
    Ok(image)
}
