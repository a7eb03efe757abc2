use std::alloc::{AllocError, Global};
use worked_media::image::{DAY, empty, put_head, put_word};

/// A unit of 366 days, each with a word for both slots at each minute; the newest is 2010-03-01, and stands at index
/// 100.
pub fn full(alloc: Global) -> Result<Vec<u8>, AllocError> {
    let mut image = empty(alloc, 14669 * 1440 + 1439, 9999999, 100)?;
    for index in 0..366 {
        // how many days it is older than the newest
        let older = (466 - index as u32) % 366;
        put_head(
            image.as_mut_slice(),
            index,
            DAY * (14669 - older),
            9000000,
            2880,
        );
        put_words(image.as_mut_slice(), index);
    }
    Ok(image)
}

/// Each minute changes both states: the driver drives in odd minutes, the co-driver is available in them.
fn put_words(image: &mut [u8], index: usize) {
    for minute in 0..1440 {
        let word = minute as u16;
        let odd = word % 2;
        put_word(image, index, 2 * minute, odd * 0x1800 + word);
        put_word(image, index, 2 * minute + 1, 0x8000 + odd * 0x0800 + word);
    }
}
