//! The entries by hand that a card file tells.
ghost use Rattle.std.specs.Prelude.{◌≡◌, ◌+◌, ◌≤◌, ◌<◌, ◌++◌, ◌^◌, length, IfOk, IfErr, OnOk};
ghost use Rattle.std.specs.List.{AllByRecursion};
ghost use Rattle.activity_codec.specs.Words.{word_minute};
ghost use Rattle.card_model.specs.Days.{Day};
ghost use Rattle.hand_model.specs.ByHand.{words_by_hand};
ghost use Rattle.view_model.specs.Lines.{day_of_minute};
ghost use Rattle.file_view.specs.ByHand.{ShowsByHand, hands_told, hand_up_to};
ghost use Rattle.file_view.specs.CardFiles.{IsBadCardFile};
ghost use Rattle.file_view.specs.Faults.{IfBadFile};
ghost use Rattle.file_view.specs.Reading.{AreParts, days_part, vehicles_part};
ghost use Rattle.file_view.specs.Walking.{IsDayAt};

use crate::ViewFault;
use crate::card::end_mark;
use crate::entry::part;
use crate::parts::{Parts, days_len, load_days, vehicles_len};
use crate::string::{heads, word};
use activity_codec::Manual;
use card_days::{DayHead, Days};
use hand_model::told_by_hand;
use std::alloc::{AllocError, Global};
use tacho_types::DAYS;

/// The entries by hand of a card file, in the order of its words, up to the end mark: what its driver has told of the
/// time without the card (Annex IB, section III, manual entries; Appendix 1, ActivityChangeInfo; the end mark:
/// profile).
///
/// # Errors
///
/// As `read_card_file`.
pub fn by_hand(alloc: Global, b: &[u8]) -> Result<Vec<Manual>, ViewFault>
    requires { length b.now < 2 ^ 32 }
    ensures told { IfOk result (λ list. ShowsByHand b.now list.items) }
    ensures low { IfOk result (λ list. AllByRecursion (λ e. day_of_minute e.minute < DAYS) list.items) }
    ensures bad { IfErr result (λ fault. IfBadFile fault (λ place. IsBadCardFile place b.now)) }
{
    let parts = match Parts::read(b) {
        Ok(parts) => parts,
        Err(place) => return Err(ViewFault::BadFile(place)),
    };
    let list = hands_in(alloc, b, parts)?;
    Ok(list)
}

/// Those of the days.
fn hands_in(alloc: Global, b: &[u8], parts: Parts) -> Result<Vec<Manual>, AllocError>
    requires short { length b.now < 2 ^ 32 }
    requires parts { AreParts b.now parts }
    ensures told { IfOk result (λ list. list.items
        ≡ hands_told parts.app (days_part b.now parts) (vehicles_part b.now parts)) }
    ensures low { IfOk result (λ list. AllByRecursion (λ e. day_of_minute e.minute < DAYS) list.items) }
{
    let file = part(b, parts.days, days_len(parts.app));
    let mark = end_mark(parts.app, part(b, parts.vehicles, vehicles_len(parts.app)));
    let mut list = Vec::new(alloc);
    let Some(string) = load_days(file) else {
        return Ok(list);
    };
    let all = heads(alloc, &string, file)?;
    for head in all.as_slice() {
        add_words(&mut list, &string, file, head, mark)?;
    }
    Ok(list)
}

/// Adds those of a day.
fn add_words(
    list: &mut Vec<Manual>,
    string: &Days,
    file: &[u8],
    head: &DayHead,
    mark: u32,
) -> Result<(), AllocError>
    requires fits { 4 + string.now.shape.size ≤ length file.now }
    requires alone { string.now.shape.base ≡ 0 }
    requires short { length file.now < 2 ^ 32 }
    requires place { head.now.place < 4 + string.now.shape.size }
    ensures { (d : Day) → IsDayAt string.now.shape file.now head.now d
        → OnOk result (list.new.items ≡ list.old.items ++ words_by_hand mark d.date d.words) }
{
    for i in 0..head.words {
        add_word(list, mark, head.date.0, word(string, file, head, i))?;
    }
    Ok(())
}

/// Adds that of a word, if it tells one that is not behind the mark.
fn add_word(list: &mut Vec<Manual>, mark: u32, date: u32, word: u16) -> Result<(), AllocError>
    ensures { word_minute word < 1440 → OnOk result (list.new.items ≡ list.old.items ++ hand_up_to mark date word) }
{
    match told_by_hand(date, word) {
        Some(entry) => {
            if entry.minute <= mark {
                list.push(entry)?;
            }
            Ok(())
        }
        None => Ok(()),
    }
}
