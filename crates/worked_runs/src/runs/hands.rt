//! Each call of a card in its session's first keep, where the session holds entries by hand, and in the keep behind it
//! is stopped. All minutes that were acknowledged are there, and so are the entries by hand once the first minute is;
//! none of them stands without that minute.
ghost use Rattle.tach_media.specs.MemMedium.{memory_state};
ghost use Rattle.unit_model.specs.Image.{IsUnit};

use crate::runs::running::{Stops, calls_of, new_devices};
use recorder_with_cards::{Break, Mark, Outcome};
use run_model::Device;
use std::alloc::{AllocError, Global};
use std::process::Abort;
use std::rt::HostRuntime;
use std::test::Fail;
use tach_media::{Left, Stop};
use worked_media::told_by_card;

/// An insertion at 06:00, with what was done since 05:00 and a break from 05:30 on, and four minutes at rest.
const HELD: &[u8] =
    b"start 1267423200\ninsert driver a\nmanual driver work 300\nmanual driver rest 330\nrun 240 0\n";

/// It up to the second before the first minute is kept.
const BEFORE: &[u8] =
    b"start 1267423200\ninsert driver a\nmanual driver work 300\nmanual driver rest 330\nrun 179 0\n";

/// An hour later the card comes again.
const AGAIN: &[u8] = b"start 1267426800\ninsert driver a\nrun 240 0\n";

/// The minute of the first second, and the words of it and of the entries by hand.
const SIX: u32 = 21123720;

const BY_HAND: [u16; 2] = [0x712C, 0x614A];

const FIRST: u16 = 0x0168;

/// Where a word stands among others.
fn place_of(words: &[u16], word: u16) -> Option<usize> {
    for i in 0..words.len() {
        if words[i] == word {
            return Some(i);
        }
    }
    None
}

/// Whether the words have both entries by hand, one behind the other, and behind them the first minute.
fn has_all(words: &[u16]) -> bool {
    let Some(first) = place_of(words, BY_HAND[0]) else {
        return false;
    };
    let Some(rest) = words.get(first..) else {
        return false;
    };
    rest.starts_with(&[BY_HAND[0], BY_HAND[1], FIRST])
}

/// Whether they have none.
fn has_none(words: &[u16]) -> bool {
    place_of(words, BY_HAND[0]).is_none() && place_of(words, BY_HAND[1]).is_none()
}

/// Whether the card has acknowledged the first minute.
fn has_mark(outcome: &Outcome) -> bool {
    for i in 0..outcome.marks.len() {
        let mark: &Mark = outcome.marks.get(i);
        if mark.device == Device::CardA && mark.minute == SIX {
            return true;
        }
    }
    false
}

/// Whether the card was pulled out once its first minute was over: then that is on the card, or it is owed to it.
fn fell_late(outcome: &Outcome) -> bool {
    for i in 0..outcome.breaks.len() {
        if let Break::Tear { second, .. } = outcome.breaks.get(i) {
            return second / 60 > SIX;
        }
    }
    false
}

/// Of words of a card: whether the entries by hand stand there before the first minute, whether none of them does, and
/// whether the first minute does.
#[derive(Clone, Copy)]
struct ByHand {
    all: bool,
    none: bool,
    minute: bool,
}

fn found_in(words: &[u16]) -> ByHand {
    ByHand {
        all: has_all(words),
        none: has_none(words),
        minute: place_of(words, FIRST).is_some(),
    }
}

/// What the first run has told of the first minute, and what is found on the card behind the second one.
#[derive(Clone, Copy)]
struct Stopped {
    marked: bool,
    late: bool,
    found: ByHand,
}

/// A run with this call stopped, and another behind it.
fn stop_once(alloc: Global, call: u64, left: Left) -> Result<Stopped, Fail> {
    let stops = Stops::one(alloc, Device::CardA, Stop { call, left })?;
    let mut d = new_devices(alloc, stops)?;
    let recorded = d.record(alloc, HELD)?;
    let marked = has_mark(&recorded.outcome);
    let late = fell_late(&recorded.outcome);
    d.renew_unit(alloc)?;
    d.run_whole(alloc, AGAIN)?;
    let told = told_by_card(alloc, &mut d.card_a)?;
    Ok(Stopped {
        marked,
        late,
        found: found_in(told.words.as_slice()),
    })
}

/// All entries by hand are there or none, all of them where the first minute was acknowledged, and that minute where
/// the card was pulled out behind it.
fn is_as_acknowledged(rt: &impl Abort, call: u64, behind: Stopped) {
    assert!(rt; behind.found.all || behind.found.none, "{call}");
    assert!(rt; behind.found.all || !behind.marked, "{call}");
    assert!(rt; behind.found.minute || !behind.late, "{call}");
}

/// Each call of both keeps.
fn stop_each(rt: &(impl Abort + AllocGlobal), left: Left) -> Result<(), Fail> {
    let alloc = rt.alloc();
    let before = calls_of(alloc, BEFORE)?;
    let whole = calls_of(alloc, HELD)?;
    assert!(rt; before.card_a < whole.card_a);
    for call in before.card_a..whole.card_a {
        is_as_acknowledged(rt, call, stop_once(alloc, call, left)?);
    }
    Ok(())
}

#[test]
fn before_a_write_of_a_first_keep_by_hand(rt: HostRuntime) -> Result<(), Fail> {
    stop_each(&rt, Left::Before)
}

#[test]
fn after_a_write_of_a_first_keep_by_hand(rt: HostRuntime) -> Result<(), Fail> {
    stop_each(&rt, Left::After)
}

#[test]
fn within_a_write_of_a_first_keep_by_hand(rt: HostRuntime) -> Result<(), Fail> {
    stop_each(&rt, Left::Torn(0xFF))
}

/// The card is pulled out before its first minute is decided, and comes again a minute later.
const PULLED: &[u8] =
    b"start 1267423200\ninsert driver a\nmanual driver work 300\nrun 90 0\ntear driver\nrun 60 0\ninsert driver a\nrun 240 0\n";

/// What is found on the card behind that.
fn found_behind(alloc: Global, text: &[u8]) -> Result<ByHand, Fail> {
    let mut d = new_devices(alloc, Stops::none(alloc))?;
    d.run_whole(alloc, text)?;
    let told = told_by_card(alloc, &mut d.card_a)?;
    Ok(found_in(told.words.as_slice()))
}

#[test]
fn the_entries_of_a_session_that_kept_no_minute_are_lost(rt: HostRuntime) -> Result<(), Fail> {
    let found = found_behind(rt.alloc(), PULLED)?;
    assert!(rt; found.none);
    assert!(rt; found.minute);
    Ok(())
}
