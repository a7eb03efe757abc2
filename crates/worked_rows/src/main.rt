//! Worked rows, and the tests that cross crates but need no recorder. The program loads units of worked images and
//! keeps minutes on worked cards, and prints what each answers and takes; the tests stop calls of units, cards and
//! openings; and the checker computes worked minutes and worked runs on the definitions themselves (proofs/). Behind
//! the program's name, `full` loads the full unit alone, `reads` prints how many reads that makes, `image` writes its
//! image to standard output, `file` loads `unit.img`, and `cards` keeps the minutes of cards alone.
#![tactic(auto)]

mod card;
#[cfg(test)]
mod openings;
mod unit;

use card::show_cards;
use std::{env, io};
use unit::{show_file, show_full, show_reads, show_units, write_full};

fn main(rt: HostRuntime) -> io::Result<()> {
    match env::args(&rt)?.nth(1) {
        None => {
            show_units(&rt)?;
            show_cards(&rt, rt.alloc())
        }
        Some(word) => match word.as_str() {
            "image" => write_full(&rt),
            "reads" => show_reads(&rt),
            "file" => show_file(&rt),
            "cards" => show_cards(&rt, rt.alloc()),
            _ => show_full(&rt),
        },
    }
}
