//! A session's first keep, with the entries by hand that it holds.
ghost use Rattle.std.specs.Prelude.{◌≡◌, ◌≤◌, ◌<◌, ◌+◌, ◌*◌, ◌/◌, ◌^◌, Some, OnOk, length, is_err};
ghost use Rattle.tach_media.specs.Medium.{Alters};
ghost use Rattle.hand_model.specs.Holding.{LieBetween, AreOfDay, of_day, begun_by};
ghost use Rattle.card_session.specs.declared.words.TheConstants.{LATEST_MINUTE};
ghost use Rattle.card_session.specs.Sessions.{IsSession, MayKeep};
ghost use Rattle.card_session.specs.Parts.{DoesPart};
ghost use Rattle.card_session.specs.ByHand.{EndsByHand};
ghost use Rattle.card_by_hand.specs.First.{IsFirstKept, IsFirstKeeping, HasEntered, MayBeEntering};

use activity_codec::{DAY_MINUTES, Manual};
use card_session::{CardSession, Kept};
use hand_model::{Held, of_day};
use tach_media::{Failed, Medium};

/// Keeps a minute with the entries by hand that a session holds: before its first minute each that lies in the minute's
/// day is written as a word of its own, and those of an earlier day are given up. From then on the session holds none,
/// and takes none.
///
/// # Errors
///
/// `Failed` where a call on the card failed: some of the entries by hand may stand behind the end mark, and the next
/// insertion cuts them off.
pub fn keep_with_hands<M: Medium>(
    session: &mut CardSession,
    held: &mut Held,
    port: &mut M,
    kept: &Kept,
) -> Result<(), Failed>
    requires card { MayKeep session.old.application (M.state port.old) }
    requires lie { LieBetween session.old.minute kept.now.entry.minute held.old.entries }
    requires first { 1440 ≤ kept.now.entry.minute }
    requires last { kept.now.entry.minute ≤ LATEST_MINUTE }
    requires fits { kept.now.odometer.0 < 2 ^ 24 }
    ensures same { (session.new.application ≡ session.old.application)
        × (session.new.registration ≡ session.old.registration) }
    ensures last { OnOk result ((session.new.minute ≡ kept.now.entry.minute)
        × (session.new.odometer ≡ Some kept.now.odometer)) }
    ensures held { OnOk result (held.new ≡ begun_by kept.now.entry.minute held.old) }
    ensures alters { Alters result (M.state port.old) (M.state port.new)
        (17 + 4 * length (of_day (kept.now.entry.minute / 1440) held.old.entries))
        (λ x y. IsSession session.old x → IsFirstKept session.old session.new
        (of_day (kept.now.entry.minute / 1440) held.old.entries) kept.now.entry kept.now.odometer.0 x y)
        (λ x c. IsSession session.old x → IsFirstKeeping session.old
        (of_day (kept.now.entry.minute / 1440) held.old.entries) kept.now.entry kept.now.odometer.0 x c) }
{
    let minute = kept.entry.minute;
    let by_hand = of_day(held.entries(), minute / DAY_MINUTES);
    keep_first(session, port, by_hand, kept)?;
    held.begin(minute);
    Ok(())
}

/// Keeps a minute behind these entries by hand, which are of its day.
fn keep_first<M: Medium>(
    session: &mut CardSession,
    port: &mut M,
    by_hand: &[Manual],
    kept: &Kept,
) -> Result<(), Failed>
    requires card { MayKeep session.old.application (M.state port.old) }
    requires lie { LieBetween session.old.minute kept.now.entry.minute by_hand.now }
    requires day { AreOfDay (kept.now.entry.minute / 1440) by_hand.now }
    requires first { 1440 ≤ kept.now.entry.minute }
    requires last { kept.now.entry.minute ≤ LATEST_MINUTE }
    requires fits { kept.now.odometer.0 < 2 ^ 24 }
    ensures same { (session.new.application ≡ session.old.application)
        × (session.new.registration ≡ session.old.registration) }
    ensures last { OnOk result ((session.new.minute ≡ kept.now.entry.minute)
        × (session.new.odometer ≡ Some kept.now.odometer)) }
    ensures alters { Alters result (M.state port.old) (M.state port.new) (17 + 4 * length by_hand.now)
        (λ x y. IsSession session.old x → IsFirstKept session.old session.new by_hand.now kept.now.entry
        kept.now.odometer.0 x y)
        (λ x c. IsSession session.old x → IsFirstKeeping session.old by_hand.now kept.now.entry kept.now.odometer.0 x
        c) }
{
    enter_all(session, port, by_hand, kept.entry.minute)?;
    session.keep(port, kept)
}

/// Writes entries by hand of the day of a minute that they lie before, one after the other.
fn enter_all<M: Medium>(
    session: &mut CardSession,
    port: &mut M,
    entries: &[Manual],
    before: u32,
) -> Result<(), Failed>
    requires card { MayKeep session.old.application (M.state port.old) }
    requires lie { LieBetween session.old.minute before entries.now }
    requires day { AreOfDay (before / 1440) entries.now }
    requires first { 1440 ≤ before }
    requires last { before ≤ LATEST_MINUTE }
    ensures same { (session.new.application ≡ session.old.application)
        × (session.new.registration ≡ session.old.registration) × (session.new.odometer ≡ session.old.odometer) }
    ensures later { OnOk result (session.new.minute < before) }
    ensures part { DoesPart (M.state port.old) (M.state port.new) (is_err result)
        (HasEntered entries.now session.old session.new) (MayBeEntering entries.now session.old) }
    ensures ends { OnOk result (0 < length entries.now → EndsByHand session.new before) }
    ensures none { length entries.now ≡ 0 → (M.state port.new).clock ≤ (M.state port.old).clock }
    ensures most { (M.state port.new).clock ≤ (M.state port.old).clock + (5 + 4 * length entries.now) }
{
    for entry in entries {
        session.enter_by_hand(port, entry)?;
    }
    Ok(())
}
