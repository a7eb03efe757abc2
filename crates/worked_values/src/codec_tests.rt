use crate::checks::same;
use activity_codec::{Activity, BadMinute, Change, Slot, decode_change, encode_change, state_at};
use std::test::*;

#[test]
fn words_tell_changes(rt: HostRuntime) {
    let driving = Change {
        slot: Slot::Driver,
        crew_or_known: false,
        absent: false,
        act: Activity::Driving,
        minute: 540,
    };
    same(&rt, &decode_change(0x1A1C), &Ok(driving));
    same(&rt, &encode_change(&driving), &0x1A1C);
    let resting = Change {
        slot: Slot::Driver,
        crew_or_known: false,
        absent: true,
        act: Activity::Rest,
        minute: 1080,
    };
    same(&rt, &decode_change(0x2438), &Ok(resting));
    let last = Change {
        minute: 1439,
        ..Change::default()
    };
    same(&rt, &decode_change(0x059F), &Ok(last));
    same(&rt, &decode_change(0x05A0), &Err(BadMinute(1440)));
}

#[test]
fn the_last_word_not_after_a_minute(rt: HostRuntime) {
    // The words are in no order of minutes, and one is of the other slot.
    let words = [0x0000, 0x1A1C, 0x8005, 0x1003];
    same(
        &rt,
        &state_at(&words, Slot::Driver, 2).map(|c| c.act),
        &Some(Activity::Rest),
    );
    same(
        &rt,
        &state_at(&words, Slot::Driver, 1439).map(|c| c.act),
        &Some(Activity::Work),
    );
    same(&rt, &state_at(&words, Slot::CoDriver, 4), &None);
}
