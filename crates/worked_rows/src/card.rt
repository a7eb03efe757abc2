//! Keeps minutes on worked cards, and prints how many commands each takes, and how many writes: on a card with room,
//! and on cards that are full, where days go. Its tests keep days and vehicles through a port.
mod counted;
#[cfg(test)]
mod days;
pub mod images;
#[cfg(test)]
mod judging;
mod keeping;
#[cfg(test)]
mod steps;
#[cfg(test)]
mod tests;

use crate::card::keeping::{Figures, Stopped, card, new_day, word};
use card_layout::LARGEST_IMAGE;
use std::alloc::Global;
use std::io;
use std::io::Print;
use tach_media::{Chip, Memory};

/// What one minute takes of a card with this image.
fn show<R: Print>(
    rt: &R,
    alloc: Global,
    name: &str,
    image: Result<Vec<u8>, Memory>,
    begins: bool,
) -> io::Result<()> {
    let Ok(image) = image else {
        return println!(rt; "out of memory");
    };
    let Ok(mut card) = card(alloc, image) else {
        return println!(rt; "out of memory");
    };
    if card.size() < LARGEST_IMAGE {
        return println!(rt; "no card");
    }
    let figures = if begins {
        new_day(&mut card)
    } else {
        word(&mut card)
    };
    match figures {
        Ok(Figures { commands, writes }) => {
            println!(rt; "{name}: {commands} commands, {writes} writes")
        }
        Err(Stopped) => println!(rt; "{name}: stopped"),
    }
}

/// What a minute takes of each worked card.
pub fn show_cards<R: Print>(rt: &R, alloc: Global) -> io::Result<()> {
    show(
        rt,
        alloc,
        "a word, with room",
        images::two_days(alloc),
        false,
    )?;
    show(rt, alloc, "a word, full", images::full(alloc, 0), false)?;
    show(rt, alloc, "a day, with room", images::two_days(alloc), true)?;
    show(rt, alloc, "a day, full", images::full(alloc, 0), true)?;
    show(
        rt,
        alloc,
        "a day round the end, full",
        images::full(alloc, 12),
        true,
    )
}
