//! Rows are begun for cards, entries are put and read, and each call of a `put_owed` and of a `begin_owed` fails in
//! turn, in each manner; the unit goes on after it.
ghost use Rattle.std.specs.Prelude.{OnOk, IfSome};
ghost use Rattle.unit_model.specs.Image.{IsUnit};
ghost use Rattle.unit_minutes.specs.Image.{Agrees};

use crate::unit::keeping::open;
use crate::unit::stop_tests::{FIRST, one_day, unit};
use activity_codec::{Activity, Entry, Slot};
use std::alloc::Global;
use std::process::Abort;
use std::test::Fail;
use tach_media::{Failed, Left, Medium};
use tacho_types::FullCardNumber;
use unit_minutes::Journal;
use worked_media::card_number;

const LEFT: [Left; 3] = [Left::Before, Left::After, Left::Torn(0xFF)];

/// 01:30:10 of 2010-02-27, and a second of the minute of 01:38, as sessions.
const SESSION: u32 = 60 * (FIRST + 90) + 10;

const LATE_SESSION: u32 = 60 * (FIRST + 98) + 59;

/// What is asked of a card's row, the session and the minute after which; and what is owed then, the first minute and
/// the end of the minutes.
#[derive(Clone, Copy)]
struct Asked {
    session: u32,
    after: u32,
    first: u32,
    end: u32,
}

/// A row of the table: the last-kept minute, the session that the card's row was begun with, and what is asked.
#[derive(Clone, Copy)]
struct OwedRow {
    kept: u32,
    begun: u32,
    asked: Asked,
}

/// What is owed of the minutes from 01:37 to 01:40.
const ROWS: [OwedRow; 6] = [
    OwedRow {
        kept: FIRST + 100,
        begun: SESSION,
        asked: Asked {
            session: SESSION,
            after: 0,
            first: FIRST + 97,
            end: FIRST + 101,
        },
    },
    OwedRow {
        kept: FIRST + 100,
        begun: SESSION,
        asked: Asked {
            session: SESSION,
            after: FIRST + 98,
            first: FIRST + 99,
            end: FIRST + 101,
        },
    },
    OwedRow {
        kept: FIRST + 100,
        begun: SESSION,
        asked: Asked {
            session: SESSION,
            after: FIRST + 100,
            first: FIRST + 101,
            end: FIRST + 101,
        },
    },
    OwedRow {
        kept: FIRST + 100,
        begun: SESSION,
        asked: Asked {
            session: SESSION + 60,
            after: 0,
            first: FIRST + 101,
            end: FIRST + 101,
        },
    },
    OwedRow {
        kept: FIRST + 100,
        begun: LATE_SESSION,
        asked: Asked {
            session: LATE_SESSION,
            after: 0,
            first: FIRST + 98,
            end: FIRST + 101,
        },
    },
    OwedRow {
        kept: FIRST + 98,
        begun: SESSION,
        asked: Asked {
            session: SESSION,
            after: 0,
            first: FIRST + 97,
            end: FIRST + 99,
        },
    },
];

/// A card's number, by its last digit.
fn card(digit: u8) -> FullCardNumber {
    let mut number = *b"DF00000000000000";
    number[15] = digit;
    card_number(&number)
}

/// An entry of a driving driver.
fn entry(minute: u32) -> Entry {
    Entry {
        minute,
        slot: Slot::Driver,
        crew: false,
        act: Activity::Driving,
    }
}

/// Begins a row for a card.
fn begin<M: Medium>(
    journal: &mut Journal,
    unit: &mut M,
    digit: u8,
    session: u32,
    spared: Option<&FullCardNumber>,
) -> Result<(), Failed>
    requires unit { IsUnit (M.state unit.old) }
    requires agrees { IfSome (M.state unit.old).image (Agrees journal.old) }
    ensures unit { IsUnit (M.state unit.new) }
    ensures agrees { OnOk result (IfSome (M.state unit.new).image (Agrees journal.new)) }
{
    if session == 0 {
        return Err(Failed);
    }
    let number = card(digit);
    journal.begin_owed(unit, &number, session, spared)
}

/// Puts an entry of a minute into a card's row, which it has.
fn put<M: Medium>(journal: &mut Journal, unit: &mut M, digit: u8, minute: u32) -> Result<(), Failed>
    requires unit { IsUnit (M.state unit.old) }
    requires agrees { IfSome (M.state unit.old).image (Agrees journal.old) }
    ensures unit { IsUnit (M.state unit.new) }
    ensures agrees { OnOk result (IfSome (M.state unit.new).image (Agrees journal.new)) }
{
    let number = card(digit);
    let found = journal.has_row(unit, &number)?;
    if !found {
        return Err(Failed);
    }
    let entry = entry(minute);
    journal.put_owed(unit, &number, &entry)
}

/// Puts the entries of 01:37 to 01:40.
fn put_four<M: Medium>(journal: &mut Journal, unit: &mut M, digit: u8) -> Result<(), Failed>
    requires unit { IsUnit (M.state unit.old) }
    requires agrees { IfSome (M.state unit.old).image (Agrees journal.old) }
    ensures unit { IsUnit (M.state unit.new) }
    ensures agrees { OnOk result (IfSome (M.state unit.new).image (Agrees journal.new)) }
{
    put(journal, unit, digit, FIRST + 97)?;
    put(journal, unit, digit, FIRST + 98)?;
    put(journal, unit, digit, FIRST + 99)?;
    put(journal, unit, digit, FIRST + 100)
}

/// Whether these are the entries of the minutes from one up to another.
fn are_of(entries: &[Entry], first: u32, end: u32) -> bool {
    let mut next = first;
    for entry in entries {
        if entry.minute != next {
            return false;
        }
        next = next.saturating_add(1);
    }
    next == end
}

/// All that is owed to a session is asked for.
fn all_of(session: u32, first: u32, end: u32) -> Asked {
    Asked {
        session,
        after: 0,
        first,
        end,
    }
}

/// Whether a card is owed the minutes from one up to another, and no others.
fn owes<M: Medium>(journal: &Journal, unit: &mut M, digit: u8, asked: Asked) -> Result<bool, Failed>
    requires unit { IsUnit (M.state unit.old) }
    requires agrees { IfSome (M.state unit.old).image (Agrees journal.now) }
    ensures unit { IsUnit (M.state unit.new) }
    ensures agrees { OnOk result (IfSome (M.state unit.new).image (Agrees journal.now)) }
{
    let number = card(digit);
    let entries = journal.owed(unit, &number, asked.session, asked.after)?;
    Ok(are_of(entries.as_slice(), asked.first, asked.end))
}

/// Whether four minutes of a card are owed so, by a row of the table.
fn owed_of_four<M: Medium>(unit: &mut M, row: OwedRow) -> Result<bool, Failed>
    requires { IsUnit (M.state unit.old) }
{
    let mut journal = open(unit)?;
    begin(&mut journal, unit, 1, row.begun, None)?;
    put_four(&mut journal, unit, 1)?;
    owes(&journal, unit, 1, row.asked)
}

/// That it is so on a unit that has kept the row's minute.
fn check_owed(rt: &(impl Abort + AllocGlobal), row: OwedRow) -> Result<(), Fail> {
    let alloc = rt.alloc();
    let mut unit = unit(alloc, one_day(alloc, row.kept)?, u64::MAX, Left::Before)?;
    let is_owed = owed_of_four(&mut unit, row)?;
    assert!(rt; is_owed);
    Ok(())
}

#[test]
fn entries_of_the_session_behind_the_mark(rt: HostRuntime) -> Result<(), Fail> {
    for row in ROWS {
        check_owed(&rt, row)?;
    }
    Ok(())
}

/// Begins two rows, the second with a later session.
fn begin_two<M: Medium>(
    journal: &mut Journal,
    unit: &mut M,
    digit: u8,
    session: u32,
) -> Result<(), Failed>
    requires unit { IsUnit (M.state unit.old) }
    requires agrees { IfSome (M.state unit.old).image (Agrees journal.old) }
    ensures unit { IsUnit (M.state unit.new) }
    ensures agrees { OnOk result (IfSome (M.state unit.new).image (Agrees journal.new)) }
{
    begin(journal, unit, digit, session, None)?;
    begin(
        journal,
        unit,
        digit.saturating_add(1),
        session.saturating_add(1),
        None,
    )
}

/// Begins eight rows, each with a later session than those before.
fn begin_eight<M: Medium>(journal: &mut Journal, unit: &mut M) -> Result<(), Failed>
    requires unit { IsUnit (M.state unit.old) }
    requires agrees { IfSome (M.state unit.old).image (Agrees journal.old) }
    ensures unit { IsUnit (M.state unit.new) }
    ensures agrees { OnOk result (IfSome (M.state unit.new).image (Agrees journal.new)) }
{
    begin_two(journal, unit, 1, SESSION)?;
    begin_two(journal, unit, 3, SESSION + 2)?;
    begin_two(journal, unit, 5, SESSION + 4)?;
    begin_two(journal, unit, 7, SESSION + 6)
}

/// Puts a minute into the row of each of the first three cards.
fn put_three<M: Medium>(journal: &mut Journal, unit: &mut M) -> Result<(), Failed>
    requires unit { IsUnit (M.state unit.old) }
    requires agrees { IfSome (M.state unit.old).image (Agrees journal.old) }
    ensures unit { IsUnit (M.state unit.new) }
    ensures agrees { OnOk result (IfSome (M.state unit.new).image (Agrees journal.new)) }
{
    put(journal, unit, 1, FIRST + 97)?;
    put(journal, unit, 2, FIRST + 98)?;
    put(journal, unit, 3, FIRST + 99)
}

/// Begins a ninth row while that of the first card is spared, and puts a minute into it.
fn begin_ninth<M: Medium>(journal: &mut Journal, unit: &mut M) -> Result<(), Failed>
    requires unit { IsUnit (M.state unit.old) }
    requires agrees { IfSome (M.state unit.old).image (Agrees journal.old) }
    ensures unit { IsUnit (M.state unit.new) }
    ensures agrees { OnOk result (IfSome (M.state unit.new).image (Agrees journal.new)) }
{
    let spared = card(1);
    begin(journal, unit, 9, SESSION + 8, Some(&spared))?;
    put(journal, unit, 9, FIRST + 100)
}

/// Whether the first card is then owed its minute alone, the second one nothing, the third and the ninth their minutes
/// alone.
fn owes_nine<M: Medium>(journal: &Journal, unit: &mut M) -> Result<[bool; 4], Failed>
    requires unit { IsUnit (M.state unit.old) }
    requires agrees { IfSome (M.state unit.old).image (Agrees journal.now) }
{
    let first = owes(journal, unit, 1, all_of(SESSION, FIRST + 97, FIRST + 98))?;
    let second = owes(journal, unit, 2, all_of(SESSION + 1, FIRST, FIRST))?;
    let third = owes(
        journal,
        unit,
        3,
        all_of(SESSION + 2, FIRST + 99, FIRST + 100),
    )?;
    let ninth = owes(
        journal,
        unit,
        9,
        all_of(SESSION + 8, FIRST + 100, FIRST + 101),
    )?;
    Ok([first, second, third, ninth])
}

/// The same of a unit on which the nine rows are begun.
fn owed_to_nine<M: Medium>(unit: &mut M) -> Result<[bool; 4], Failed>
    requires { IsUnit (M.state unit.old) }
{
    let mut journal = open(unit)?;
    begin_eight(&mut journal, unit)?;
    put_three(&mut journal, unit)?;
    begin_ninth(&mut journal, unit)?;
    owes_nine(&journal, unit)
}

#[test]
fn a_ninth_card_takes_the_row_of_the_least_session_but_the_spared_one(
    rt: HostRuntime,
) -> Result<(), Fail> {
    let alloc = rt.alloc();
    let mut unit = unit(alloc, one_day(alloc, FIRST + 100)?, u64::MAX, Left::Before)?;
    assert_eq!(rt; owed_to_nine(&mut unit)?, [true; 4]);
    Ok(())
}

/// Puts the entries of 01:37 to 01:40, and then that of 01:41 into the cell of the first: whether that was `Ok`.
fn put_fifth<M: Medium>(unit: &mut M) -> Result<bool, Failed>
    requires { IsUnit (M.state unit.old) }
    ensures { IsUnit (M.state unit.new) }
{
    let mut journal = open(unit)?;
    begin(&mut journal, unit, 1, SESSION, None)?;
    put_four(&mut journal, unit, 1)?;
    Ok(put(&mut journal, unit, 1, FIRST + 101).is_ok())
}

/// Whether the minutes from one up to another are owed then, and 01:38 to 01:41 once that entry was put again.
fn put_again<M: Medium>(unit: &mut M, first: u32, end: u32) -> Result<(bool, bool), Failed>
    requires { IsUnit (M.state unit.old) }
{
    let mut journal = open(unit)?;
    let found = owes(&journal, unit, 1, all_of(SESSION, first, end))?;
    put(&mut journal, unit, 1, FIRST + 101)?;
    let again = owes(&journal, unit, 1, all_of(SESSION, FIRST + 98, FIRST + 102))?;
    Ok((found, again))
}

/// Both, where a call fails so: how many calls there were up to the end of the put, and the three answers.
fn put_stopped(
    alloc: Global,
    call: u64,
    left: Left,
    first: u32,
    end: u32,
) -> Result<(u64, [bool; 3]), Fail> {
    let mut unit = unit(alloc, one_day(alloc, FIRST + 101)?, call, left)?;
    let is_ok = put_fifth(&mut unit)?;
    let calls = unit.calls();
    unit.revive()?;
    let (found, again) = put_again(&mut unit, first, end)?;
    Ok((calls, [is_ok, found, again]))
}

/// That a stop at a write of the minute's 0, the word, or the minute leaves the minute before, none, or the new one.
fn check_put(rt: &(impl Abort + AllocGlobal), end: u64, back: u64, left: Left) -> Result<(), Fail> {
    if end < back {
        return Err(Fail::from("too few calls"));
    }
    let emptied = back < 3 || (back == 3 && left == Left::After);
    let entered = back == 1 && left == Left::After;
    let first = if emptied { FIRST + 98 } else { FIRST + 97 };
    let last = if entered { FIRST + 102 } else { FIRST + 101 };
    let (_, told) = put_stopped(rt.alloc(), end - back, left, first, last)?;
    assert_eq!(rt; told, [false, true, true]);
    Ok(())
}

#[test]
fn an_entry_that_is_put_over_another(rt: HostRuntime) -> Result<(), Fail> {
    let alloc = rt.alloc();
    let (end, told) = put_stopped(alloc, u64::MAX, Left::Before, FIRST + 98, FIRST + 102)?;
    assert_eq!(rt; (told[0], told[1]), (true, true));
    // the call reads once and writes three times; the last write is the call before the end
    for back in 1..5 {
        for left in LEFT {
            check_put(&rt, end, back, left)?;
        }
    }
    Ok(())
}

/// Begins a card's row again, with four minutes in it, while another card's row is spared: whether that was `Ok`.
fn begin_again<M: Medium>(unit: &mut M) -> Result<bool, Failed>
    requires { IsUnit (M.state unit.old) }
    ensures { IsUnit (M.state unit.new) }
{
    let mut journal = open(unit)?;
    begin(&mut journal, unit, 1, SESSION, None)?;
    put_four(&mut journal, unit, 1)?;
    begin(&mut journal, unit, 2, SESSION + 1, None)?;
    put(&mut journal, unit, 2, FIRST + 97)?;
    let other = card(2);
    Ok(begin(&mut journal, unit, 1, SESSION + 60, Some(&other)).is_ok())
}

/// What it leaves, where the old row has the minutes from one up to 01:41.
#[derive(Clone, Copy)]
struct Begun {
    /// Whether those are owed to the card in its old session, nothing in the new one, and its minute alone to the other
    /// card.
    old: bool,
    new: bool,
    other: bool,
    /// Whether a minute that is put is owed alone, once the row was begun again.
    again: bool,
}

fn begun_again<M: Medium>(unit: &mut M, first: u32) -> Result<Begun, Failed>
    requires { IsUnit (M.state unit.old) }
{
    let mut journal = open(unit)?;
    let old = owes(&journal, unit, 1, all_of(SESSION, first, FIRST + 101))?;
    let new = owes(&journal, unit, 1, all_of(SESSION + 60, FIRST, FIRST))?;
    let other = owes(
        &journal,
        unit,
        2,
        all_of(SESSION + 1, FIRST + 97, FIRST + 98),
    )?;
    let spared = card(2);
    begin(&mut journal, unit, 1, SESSION + 60, Some(&spared))?;
    put(&mut journal, unit, 1, FIRST + 101)?;
    let again = owes(
        &journal,
        unit,
        1,
        all_of(SESSION + 60, FIRST + 101, FIRST + 102),
    )?;
    Ok(Begun {
        old,
        new,
        other,
        again,
    })
}

/// Both, where a call fails so: how many calls there were up to the end of that begin, whether it was `Ok`, and what it
/// leaves.
fn begin_stopped(
    alloc: Global,
    call: u64,
    left: Left,
    first: u32,
) -> Result<(u64, bool, Begun), Fail> {
    let mut unit = unit(alloc, one_day(alloc, FIRST + 101)?, call, left)?;
    let is_ok = begin_again(&mut unit)?;
    let end = unit.calls();
    unit.revive()?;
    Ok((end, is_ok, begun_again(&mut unit, first)?))
}

/// That a stop leaves the old row or one that is nobody's, and the other card's row as it was.
fn check_begin(
    rt: &(impl Abort + AllocGlobal),
    end: u64,
    back: u64,
    left: Left,
) -> Result<(), Fail> {
    if end < back {
        return Err(Fail::from("too few calls"));
    }
    let is_whole = back == 8 || (back == 7 && left != Left::After);
    let first = if is_whole { FIRST + 97 } else { FIRST + 101 };
    let (_, is_ok, begun) = begin_stopped(rt.alloc(), end - back, left, first)?;
    assert!(rt; !is_ok);
    assert!(rt; begun.old && begun.new && begun.other && begun.again);
    Ok(())
}

#[test]
fn a_row_that_is_begun_again(rt: HostRuntime) -> Result<(), Fail> {
    let (end, is_ok, begun) = begin_stopped(rt.alloc(), u64::MAX, Left::Before, FIRST + 101)?;
    assert!(rt; is_ok);
    assert!(rt; begun.old && begun.other);
    // the call reads once and writes seven times
    for back in 1..9 {
        for left in LEFT {
            check_begin(&rt, end, back, left)?;
        }
    }
    Ok(())
}
