//! One line of a trace.
ghost use Rattle.std.specs.Prelude.{◌≡◌, ℕ, ◌∷◌, [], IfSome, IfNone, codes, Bool};
ghost use Rattle.activity_codec.specs.declared.values.Pick.{Pick as EachPick};
ghost use Rattle.activity_codec.specs.declared.values.Slot.{Slot as EachSlot};
ghost use Rattle.text_fields.specs.Pieces.{pieces};
ghost use Rattle.trace_model.specs.declared.Card.{Card as EachCard};
ghost use Rattle.trace_model.specs.declared.Item.{Item as Each};
ghost use Rattle.activity_codec.specs.Names.{slot_name, pick_name};
ghost use Rattle.trace_model.specs.Names.{card_name};
ghost use Rattle.trace_text.specs.Line.{IsStart, IsItem, InRange, item_fields, ending_word};
ghost use Rattle.trace_text.specs.Text.{counts, fields};

use crate::lines_trace::Form;
use activity_codec::{Activity, DAY_MINUTES, Pick, Slot};
use text_fields::{
    byte, first_piece, four_fields, is_word, number_between, one_field, three_fields, two_fields,
};
use trace_model::{Action, Card, Item};

/// The earliest second of a trace, since 1970-01-01 00:00 GMT.
pub const FIRST: u32 = 86400;

/// The latest second of a trace.
pub const LAST: u32 = 4294880895;

/// The number of a day's last minute.
const LAST_OF_DAY: u32 = DAY_MINUTES - 1;

/// The most seconds of a trace: 400 days.
pub const MOST: u32 = 34560000;

/// Whether a line counts: it is not empty and does not begin with `#`.
pub fn is_counted(line: &[u8]) -> bool
    ensures { result ≡ counts line.now }
{
    match line {
        [] => false,
        [first, ..] => *first != b'#',
    }
}

/// The second of a `start` line.
pub fn read_start(line: &[u8]) -> Option<u32>
    ensures found { IfSome result (λ t. IsStart (fields line.now) t) }
    ensures none { IfNone result ((t : ℕ) → IsStart (fields line.now) t → ⊥) }
{
    let (word, digits) = two_fields(line)?;
    if !is_word(word, b"start") {
        return None;
    }
    number_between(digits, FIRST, LAST)
}

/// The item of a line, where it is one of the form.
pub fn read_item(form: Form, line: &[u8]) -> Option<Item>
    ensures found { IfSome result (λ item. IsItem form (fields line.now) item) }
    ensures none { IfNone result ((item : Each) → IsItem form (fields line.now) item → ⊥) }
{
    let item = read_any(line)?;
    if form.has(item) { Some(item) } else { None }
}

/// The item of a line, by its first field.
fn read_any(line: &[u8]) -> Option<Item>
    ensures found { IfSome result (λ item. (fields line.now ≡ item_fields item) × InRange item) }
    ensures none { IfNone result ((item : Each) → fields line.now ≡ item_fields item → InRange item → ⊥) }
{
    let (word, behind) = first_piece(line, b' ');
    let rest = behind?;
    if is_word(word, b"run") {
        return read_run(rest);
    }
    if is_word(word, b"off") {
        return read_off(rest);
    }
    read_action(word, rest)
}

/// The item of an action, by its first field.
fn read_action(word: &[u8], rest: &[u8]) -> Option<Item>
    requires run { word.now ≡ codes "run" → ⊥ }
    requires off { word.now ≡ codes "off" → ⊥ }
    ensures found { IfSome result (λ item. (word.now ∷ pieces 32 rest.now ≡ item_fields item) × InRange item) }
    ensures none { IfNone result ((item : Each) → word.now ∷ pieces 32 rest.now ≡ item_fields item → InRange item → ⊥) }
{
    if is_word(word, b"select") {
        return read_select(rest);
    }
    if is_word(word, b"insert") {
        return read_insert(rest);
    }
    if is_word(word, b"withdraw") {
        return read_withdraw(rest);
    }
    if is_word(word, b"tear") {
        return read_tear(rest);
    }
    if is_word(word, b"place") {
        return read_place(rest);
    }
    if is_word(word, b"manual") {
        return read_manual(rest);
    }
    None
}

/// The item of `run` with these fields.
fn read_run(rest: &[u8]) -> Option<Item>
    ensures found { IfSome result (λ item. (codes "run" ∷ pieces 32 rest.now ≡ item_fields item) × InRange item) }
    ensures none { IfNone result ((item : Each) → codes "run" ∷ pieces 32 rest.now ≡ item_fields item → InRange item
        → ⊥) }
{
    let (seconds, speed) = two_fields(rest)?;
    let seconds = number_between(seconds, 1, MOST)?;
    let speed = byte(speed)?;
    Some(Item::Run { seconds, speed })
}

/// The item of `off` with these fields.
fn read_off(rest: &[u8]) -> Option<Item>
    ensures found { IfSome result (λ item. (codes "off" ∷ pieces 32 rest.now ≡ item_fields item) × InRange item) }
    ensures none { IfNone result ((item : Each) → codes "off" ∷ pieces 32 rest.now ≡ item_fields item → InRange item
        → ⊥) }
{
    let seconds = one_field(rest)?;
    let seconds = number_between(seconds, 1, MOST)?;
    Some(Item::Off { seconds })
}

/// The item of `select` with these fields.
fn read_select(rest: &[u8]) -> Option<Item>
    ensures found { IfSome result (λ item. (codes "select" ∷ pieces 32 rest.now ≡ item_fields item) × InRange item) }
    ensures none { IfNone result ((item : Each) → codes "select" ∷ pieces 32 rest.now ≡ item_fields item → InRange item
        → ⊥) }
{
    let (slot, pick) = two_fields(rest)?;
    let slot = read_slot(slot)?;
    let pick = read_pick(pick)?;
    Some(Item::Act(Action::Select { slot, pick }))
}

/// The item of `insert` with these fields.
fn read_insert(rest: &[u8]) -> Option<Item>
    ensures found { IfSome result (λ item. (codes "insert" ∷ pieces 32 rest.now ≡ item_fields item) × InRange item) }
    ensures none { IfNone result ((item : Each) → codes "insert" ∷ pieces 32 rest.now ≡ item_fields item → InRange item
        → ⊥) }
{
    let (slot, card) = two_fields(rest)?;
    let slot = read_slot(slot)?;
    let card = read_card(card)?;
    Some(Item::Act(Action::Insert { slot, card }))
}

/// The item of `withdraw` with these fields.
fn read_withdraw(rest: &[u8]) -> Option<Item>
    ensures found { IfSome result (λ item. (codes "withdraw" ∷ pieces 32 rest.now ≡ item_fields item) × InRange item) }
    ensures none { IfNone result ((item : Each) → codes "withdraw" ∷ pieces 32 rest.now ≡ item_fields item
        → InRange item → ⊥) }
{
    let slot = one_field(rest)?;
    let slot = read_slot(slot)?;
    Some(Item::Act(Action::Withdraw { slot }))
}

/// The item of `tear` with these fields.
fn read_tear(rest: &[u8]) -> Option<Item>
    ensures found { IfSome result (λ item. (codes "tear" ∷ pieces 32 rest.now ≡ item_fields item) × InRange item) }
    ensures none { IfNone result ((item : Each) → codes "tear" ∷ pieces 32 rest.now ≡ item_fields item → InRange item
        → ⊥) }
{
    let slot = one_field(rest)?;
    let slot = read_slot(slot)?;
    Some(Item::Act(Action::Tear { slot }))
}

/// The item of `place` with these fields.
fn read_place(rest: &[u8]) -> Option<Item>
    ensures found { IfSome result (λ item. (codes "place" ∷ pieces 32 rest.now ≡ item_fields item) × InRange item) }
    ensures none { IfNone result ((item : Each) → codes "place" ∷ pieces 32 rest.now ≡ item_fields item → InRange item
        → ⊥) }
{
    let (slot, ending, country, region) = four_fields(rest)?;
    let slot = read_slot(slot)?;
    let ending = read_ending(ending)?;
    let country = byte(country)?;
    let region = byte(region)?;
    Some(Item::Act(Action::Place {
        slot,
        ending,
        country,
        region,
    }))
}

/// The item of `manual` with these fields.
fn read_manual(rest: &[u8]) -> Option<Item>
    ensures found { IfSome result (λ item. (codes "manual" ∷ pieces 32 rest.now ≡ item_fields item) × InRange item) }
    ensures none { IfNone result ((item : Each) → codes "manual" ∷ pieces 32 rest.now ≡ item_fields item → InRange item
        → ⊥) }
{
    let (slot, pick, minute) = three_fields(rest)?;
    let slot = read_slot(slot)?;
    let pick = read_pick(pick)?;
    let minute = number_between(minute, 0, LAST_OF_DAY)?;
    Some(Item::Act(Action::Manual {
        slot,
        pick,
        minute: minute as u16,
    }))
}

/// The slot of this name.
fn read_slot(word: &[u8]) -> Option<Slot>
    ensures found { IfSome result (λ slot. word.now ≡ slot_name slot) }
    ensures none { IfNone result ((slot : EachSlot) → word.now ≡ slot_name slot → ⊥) }
{
    if is_word(word, Slot::Driver.name()) {
        return Some(Slot::Driver);
    }
    if is_word(word, Slot::CoDriver.name()) {
        return Some(Slot::CoDriver);
    }
    None
}

/// The selection of this name.
fn read_pick(word: &[u8]) -> Option<Pick>
    ensures found { IfSome result (λ pick. word.now ≡ pick_name pick) }
    ensures none { IfNone result ((pick : EachPick) → word.now ≡ pick_name pick → ⊥) }
{
    if is_word(word, Activity::Rest.name()) {
        return Some(Pick::Rest);
    }
    if is_word(word, Activity::Available.name()) {
        return Some(Pick::Available);
    }
    if is_word(word, Activity::Work.name()) {
        return Some(Pick::Work);
    }
    None
}

/// The card of this name.
fn read_card(word: &[u8]) -> Option<Card>
    ensures found { IfSome result (λ card. word.now ≡ card_name card) }
    ensures none { IfNone result ((card : EachCard) → word.now ≡ card_name card → ⊥) }
{
    Card::named(word)
}

/// Whether a place is where the day ends, and not where it begins.
fn read_ending(word: &[u8]) -> Option<bool>
    ensures found { IfSome result (λ ending. word.now ≡ ending_word ending) }
    ensures none { IfNone result ((ending : Bool) → word.now ≡ ending_word ending → ⊥) }
{
    if is_word(word, b"begin") {
        return Some(false);
    }
    if is_word(word, b"end") {
        return Some(true);
    }
    None
}
