//! Runs of calls.
use crate::checks::same;
use activity_codec::Slot;
use card_slots::{SlotFault, Slots};
use std::test::*;
use trace_model::Card;

/// A minute and its first second: 2010-03-01 00:00 GMT.
const MINUTE: u32 = 21123360;

const SECOND: u32 = 1267401600;

#[test]
fn a_card_is_present_from_the_minute_after_its_newest(rt: HostRuntime) {
    let mut slots = Slots::new();
    // In the slot, and then accepted.
    slots.put(Slot::Driver, Card::A, None);
    same(
        &rt,
        &slots.may_note(Slot::Driver),
        &Err(SlotFault::NoCard(Slot::Driver)),
    );
    slots.put(Slot::Driver, Card::A, Some(MINUTE));
    same(&rt, &slots.may_note(Slot::Driver), &Ok(()));
    slots.end_minute(MINUTE);
    slots.end_minute(MINUTE + 1);
    same(&rt, &slots.present(MINUTE).driver, &None);
    same(&rt, &slots.present(MINUTE + 1).driver, &Some(Card::A));
    same(&rt, &slots.present(MINUTE + 1).codriver, &None);
}

#[test]
fn a_card_that_changes_slots_is_not_present_in_that_minute(rt: HostRuntime) {
    let mut slots = Slots::new();
    slots.put(Slot::Driver, Card::A, Some(0));
    slots.put(Slot::CoDriver, Card::B, Some(0));
    slots.end_minute(MINUTE);
    slots.take(Slot::Driver, SECOND + 60);
    slots.put(Slot::Driver, Card::A, Some(0));
    slots.end_minute(MINUTE + 1);
    slots.end_minute(MINUTE + 2);
    same(&rt, &slots.present(MINUTE).driver, &Some(Card::A));
    same(&rt, &slots.present(MINUTE + 1).driver, &None);
    same(&rt, &slots.present(MINUTE + 1).codriver, &Some(Card::B));
    same(&rt, &slots.present(MINUTE + 2).driver, &Some(Card::A));
}

#[test]
fn power_that_is_lost_ends_acceptance(rt: HostRuntime) {
    let mut slots = Slots::new();
    slots.put(Slot::CoDriver, Card::B, Some(0));
    slots.cut(SECOND + 59);
    same(
        &rt,
        &slots.may_note(Slot::CoDriver),
        &Err(SlotFault::NoCard(Slot::CoDriver)),
    );
    same(&rt, &slots.card(Slot::CoDriver), &Some(Card::B));
    slots.end_minute(MINUTE);
    slots.put(Slot::CoDriver, Card::B, Some(MINUTE));
    slots.end_minute(MINUTE + 1);
    same(&rt, &slots.present(MINUTE).codriver, &None);
    same(&rt, &slots.present(MINUTE + 1).codriver, &Some(Card::B));
}

#[test]
fn refusals_in_their_order(rt: HostRuntime) {
    let mut slots = Slots::new();
    let empty = Err(SlotFault::Empty(Slot::Driver));
    let moving = Err(SlotFault::Moving(80));
    same(&rt, &slots.may_tear(Slot::Driver), &empty);
    same(&rt, &slots.may_withdraw(Slot::Driver, 80), &empty);
    slots.put(Slot::Driver, Card::A, None);
    same(&rt, &slots.may_withdraw(Slot::Driver, 80), &moving);
    same(&rt, &slots.may_withdraw(Slot::Driver, 0), &Ok(()));
    same(&rt, &slots.may_tear(Slot::Driver), &Ok(()));
    let elsewhere = Err(SlotFault::Elsewhere(Card::A));
    same(&rt, &slots.may_insert(Slot::CoDriver, Card::A), &elsewhere);
    same(&rt, &slots.may_insert(Slot::CoDriver, Card::B), &Ok(()));
    slots.put(Slot::CoDriver, Card::B, None);
    let occupied = Err(SlotFault::Occupied(Slot::CoDriver));
    same(&rt, &slots.may_insert(Slot::CoDriver, Card::A), &occupied);
    let no_card = Err(SlotFault::NoCard(Slot::CoDriver));
    same(&rt, &slots.may_enter(Slot::CoDriver, 80), &no_card);
    slots.put(Slot::CoDriver, Card::B, Some(0));
    same(&rt, &slots.may_enter(Slot::CoDriver, 80), &moving);
    same(&rt, &slots.may_enter(Slot::CoDriver, 0), &Ok(()));
}
