//! Worked seconds, fed one by one and in runs.
use crate::checks::same;
use event_model::{DRIVING_WITHOUT_CARD, OVER_SPEEDING};
use event_rules::{
    Held, NoCardRun, Over, Overspeed, Span, day_place, place_for, power_gap, similar_after,
};
use std::test::*;

/// 2010-03-01 00:00:00 GMT, 0x4B8B0380.
const START: u32 = 1267401600;

#[test]
fn sixty_one_seconds_are_an_over_speeding(rt: HostRuntime) {
    let over = Over {
        begin: 0x4B8B0380,
        end: 0x4B8B03BC,
        most: 100,
        average: 100,
    };
    let mut speeds = Overspeed::new(90);
    same(&rt, &speeds.feed_run(START, 60, 100), &None);
    same(&rt, &speeds.feed(START + 60, 100), &None);
    same(&rt, &speeds.feed(START + 61, 0), &Some(over));
    same(&rt, &speeds.feed(START + 62, 0), &None);
    let mut shorter = Overspeed::new(90);
    same(&rt, &shorter.feed_run(START, 60, 100), &None);
    same(&rt, &shorter.feed(START + 60, 0), &None);
}

#[test]
fn two_over_speedings_in_a_span(rt: HostRuntime) {
    let mut speeds = Overspeed::new(90);
    same(&rt, &speeds.feed_run(86400, 61, 95), &None);
    same(&rt, &speeds.feed(86461, 100), &None);
    let first = speeds.feed(86462, 90);
    same(&rt, &first.map(|over| over.average), &Some(95));
    same(&rt, &first.map(|over| over.most), &Some(100));
    same(&rt, &speeds.feed_run(86463, 61, 200), &None);
    let second = speeds.feed_run(86524, 60, 0);
    same(&rt, &second.map(|over| over.begin), &Some(86463));
    same(&rt, &second.map(|over| over.end), &Some(86523));
}

#[test]
fn driving_without_a_card_till_one_is_accepted(rt: HostRuntime) {
    let mut run = NoCardRun::new();
    same(&rt, &run.feed_run(START, 240, false), &None);
    same(&rt, &run.feed_run(START + 240, 60, true), &None);
    same(&rt, &run.feed_run(START + 300, 60, true), &None);
    let ended = Span {
        begin: START + 240,
        end: START + 359,
    };
    same(&rt, &run.feed(START + 360, false), &Some(ended));
    same(&rt, &run.feed(START + 361, false), &None);
}

#[test]
fn power_was_gone_since_the_minute_after_the_last_kept(rt: HostRuntime) {
    let gap = Span {
        begin: START + 480,
        end: START + 1200,
    };
    same(&rt, &power_gap(START / 60 + 7, START + 1200), &Some(gap));
    same(&rt, &power_gap(0, START), &None);
}

#[test]
fn of_equals_the_held_event_stays_and_counts_the_other(rt: HostRuntime) {
    let mut held = [Held::default(); 10];
    held[0] = Held {
        begin: 86400,
        end: 86409,
        weight: 0,
    };
    let equal = Held {
        begin: 90000,
        end: 90009,
        weight: 0,
    };
    let longer = Held {
        begin: 90000,
        end: 90010,
        weight: 0,
    };
    let next_day = Held {
        begin: 172800,
        end: 172801,
        weight: 0,
    };
    same(&rt, &place_for(DRIVING_WITHOUT_CARD, &held, &equal), &None);
    same(
        &rt,
        &day_place(DRIVING_WITHOUT_CARD, &held, &equal),
        &Some(0),
    );
    same(&rt, &similar_after(Some(1)), &2);
    same(
        &rt,
        &place_for(DRIVING_WITHOUT_CARD, &held, &longer),
        &Some(0),
    );
    same(&rt, &place_for(OVER_SPEEDING, &held, &next_day), &Some(1));
    same(&rt, &day_place(OVER_SPEEDING, &held, &next_day), &None);
    same(&rt, &similar_after(None), &1);
}
