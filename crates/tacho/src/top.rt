//! The top call: all that the program does, over any source, sink and devices.
ghost use Rattle.std.specs.Prelude.{◌≡◌, Some};
ghost use Rattle.tacho.specs.Forms.{form_of};
ghost use Rattle.tacho.specs.Outside.{outside, tells, handed};
ghost use Rattle.tacho.specs.declared.forms.Form.TheVariants.{Record as FormOfRecord, FormatCard as FormOfFormat};
ghost use Rattle.tacho.specs.declared.forms.Form.TheVariants.{CardFile as FormOfCard, Demo as FormOfDemo};
ghost use Rattle.tacho.specs.declared.forms.Form.TheVariants.{ServeCard as FormOfSlot};
ghost use Rattle.tacho.specs.Outcomes.{IsToldForUnit};
ghost use Rattle.tacho.specs.Program.{AreDevices, Ends, Spares, Does};
ghost use Rattle.tacho.specs.Serving.{AnswersWaiting};
ghost use Rattle.tacho.specs.Packets.{WritesFile};
ghost use Rattle.tach_media.specs.Medium.{Rose};

use crate::card_command::card_end;
use crate::demo_command::demo;
use crate::download_command::download_end;
use crate::end::{Ended, Fault};
use crate::format_command::{format_card, make_unit};
use crate::forms::{Form, form_of};
use crate::help_command::{print_help, print_version};
use crate::minutes_command::print_minutes;
use crate::packets_command::packets_end;
use crate::reading_command::print_reading;
use crate::record_command::record;
use crate::serve_command::{lines_end, serve_end};
use crate::slot_command::slot_end;
use crate::state_command::print_state;
use crate::upgrade_command::upgrade_unit;
use crate::words::Words;
use card_download::write_card_file;
use card_files::CardIdentity;
use card_service::serve_card;
use device_state::devices_state;
use link_session::{Peer, serve, serve_lines};
use noisy_download::download_noisy;
use packet_service::{download_packets, serve_packets};
use run_model::{Card, Device};
use run_outcome::Outcome;
use std::alloc::Global;
use tach_media::{Chip, Medium, Sink, Source};
use unit_download::{Wire, download};

/// Does what the words ask for.
///
/// Of a trace, which it reads from the source:
/// - `minutes` writes the view text of its decided minutes, no card present, to the sink; `minutes 2009` the same by
///   the amended rule.
/// - `record` records it on the unit and the cards, and writes five lines of counts to the sink; a trace without a
///   card's line is recorded on the unit alone.
///
/// Of a unit or a card:
/// - `serve` answers the frames among the bytes of the source by the messages of the unit, and writes the answers to
///   the sink; `serve --hex` the same of lines of hexadecimal digits; `serve packets` answers packets.
/// - `download` downloads the unit, and writes its file, message by message, to the sink; `download noisy X` the same
///   over a link that loses, repeats and delays; `download packets` asks by packets, and writes the unit's file to the
///   file.
/// - `card a` and `card b` read the card by its commands, and write its card file to the sink.
/// - `serve card a` and `serve card b` let the card answer the commands that come as packets from the source, and write
///   its answers to the sink. An update is written before its answer.
/// - `state` reads the unit and the cards, and writes what they tell of themselves, a line each.
/// - `format a` and `format b` issue the card anew, of the largest sizes, `format unit` makes the unit new; they write
///   `formatted` to the sink. `upgrade` gives the unit version 2 with the amended rule of minutes, and writes
///   `upgraded`, or `already 2` where the unit had it.
/// - `demo X` makes the unit and card a new, records a demonstration on the unit and the cards, downloads the unit, and
///   writes seven lines of counts to the sink.
///
/// Of a unit file or a card file, which it reads from the source, to the sink:
/// - `view` writes the view text of its minutes or entries, `view manual` that of the entries by hand of a card file;
///   `totals` the hours of each day, `chart` a picture of its days, `show` all that stands in it as JSON, `speeds` the
///   speed of each minute of a unit file. With `last N` each but `view manual` is of the last days alone (`speeds`: of
///   the last minutes).
/// - `match` reads a unit file and a card file, and writes whether the card's entries stand in the unit file; `match
///   all` all that differ.
///
/// No other device is used than the form's. `help` and `--help` write the forms to the sink, a line each, and
/// `--version` the version.
pub fn tacho<S: Peer<K>, K: Sink, F: Sink, U: Medium, C: Chip>(
    alloc: Global,
    words: &Words,
    source: &mut S,
    sink: &mut K,
    file: &mut F,
    unit: &mut U,
    card_a: &mut C,
    card_b: &mut C,
) -> Ended
    requires { AreDevices (U.state unit.old) (C.state card_a.old) (C.state card_b.old) }

    // The call ends as the form of the words says, at usage exactly where they are in none, with the fault's status;
    // and what is told to have failed has failed.
    ensures ends { Ends (form_of words.now)
        (outside S.left S.faults K.held K.faults U.state C.state C.card source.old sink.old unit.old card_a.old
        card_b.old)
        (outside S.left S.faults K.held K.faults U.state C.state C.card source.new sink.new unit.new card_a.new
        card_b.new) result }

    // What the form does not name is as it was, and so are the cards where `record` reads a trace without a card's
    // line; so are the devices where memory ran out, and the sink where nothing is to be printed, but for `serve`,
    // `serve --hex`, `serve card` and `download`, which write as they read, for `show`, which leaves the sink as it was
    // where its file is none, and for `card a` and `card b`, which do so where a field is named.
    ensures spares { Spares (form_of words.now) result.fault (IsToldForUnit (S.left source.old))
        (source.new ≡ source.old) (sink.new ≡ sink.old) (unit.new ≡ unit.old) (card_a.new ≡ card_a.old)
        (card_b.new ≡ card_b.old) }

    // A loader that waits for the answers to what it has sent has them before more is read.
    ensures in_time { AnswersWaiting (form_of words.now)
        (outside S.left S.faults K.held K.faults U.state C.state C.card source.old sink.old unit.old card_a.old
        card_b.old)
        (outside S.left S.faults K.held K.faults U.state C.state C.card source.new sink.new unit.new card_a.new
        card_b.new) (S.asked source.old) (S.asked source.new) }

    // The file has what a download by packets put out; no other form touches it.
    ensures file { WritesFile (form_of words.now) (S.left source.old) (S.left source.new)
        (record { link = K.held sink.old; file = F.held file.old })
        (record { link = K.held sink.new; file = F.held file.new }) (Rose (F.faults file.old) (F.faults file.new))
        (file.new ≡ file.old) result.fault }
{
    match form_of(words) {
        None => Ended::by_fault(alloc, Fault::Usage),
        Some(form) => perform(alloc, form, source, sink, file, unit, card_a, card_b),
    }
}

/// Does what a form of the words asks for.
fn perform<S: Peer<K>, K: Sink, F: Sink, U: Medium, C: Chip>(
    alloc: Global,
    form: Form,
    source: &mut S,
    sink: &mut K,
    file: &mut F,
    unit: &mut U,
    card_a: &mut C,
    card_b: &mut C,
) -> Ended
    requires { AreDevices (U.state unit.old) (C.state card_a.old) (C.state card_b.old) }
    ensures does { Does (tells S.left S.faults K.held K.faults U.state C.state C.card) (Some form)
        (handed source.old sink.old unit.old card_a.old card_b.old)
        (handed source.new sink.new unit.new card_a.new card_b.new) result }
    ensures in_time { AnswersWaiting (Some form)
        (outside S.left S.faults K.held K.faults U.state C.state C.card source.old sink.old unit.old card_a.old
        card_b.old)
        (outside S.left S.faults K.held K.faults U.state C.state C.card source.new sink.new unit.new card_a.new
        card_b.new) (S.asked source.old) (S.asked source.new) }
    ensures file { WritesFile (Some form) (S.left source.old) (S.left source.new)
        (record { link = K.held sink.old; file = F.held file.old })
        (record { link = K.held sink.new; file = F.held file.new }) (Rose (F.faults file.old) (F.faults file.new))
        (file.new ≡ file.old) result.fault }
{
    match form {
        Form::Minutes { rule } => Ended::by_answer(alloc, print_minutes(alloc, rule, source, sink)),
        Form::Record => perform_record(alloc, source, sink, unit, card_a, card_b),
        Form::FormatCard { card, identity } => {
            perform_format(alloc, card, &identity, source, sink, unit, card_a, card_b)
        }
        Form::FormatUnit { identity } => Ended::by_answer(alloc, make_unit(&identity, unit, sink)),
        Form::Upgrade => Ended::by_answer(alloc, upgrade_unit(unit, sink)),
        Form::State => {
            let told = devices_state(unit, card_a, card_b);
            Ended::by_answer(alloc, print_state(alloc, &told, sink))
        }
        Form::Serve => Ended::by_fault(alloc, serve_end(serve(source, sink, unit))),
        Form::ServeHex => Ended::by_fault(alloc, lines_end(serve_lines(alloc, source, sink, unit))),
        Form::ServePackets => Ended::by_fault(alloc, serve_end(serve_packets(source, sink, unit))),
        Form::ServeCard { card } => perform_slot(alloc, card, source, sink, unit, card_a, card_b),
        Form::DownloadPackets => Ended::by_fault(
            alloc,
            packets_end(download_packets(alloc, source, sink, file)),
        ),
        Form::Download => {
            let mut wire = Wire::new(alloc);
            let done = download(alloc, sink, unit, &mut wire);
            Ended::by_wire(alloc, wire, download_end(done))
        }
        Form::DownloadNoisy { seed } => {
            let mut wire = Wire::new(alloc);
            let done = download_noisy(alloc, seed, sink, unit, &mut wire);
            Ended::by_wire(alloc, wire, download_end(done))
        }
        Form::Read { reading } => {
            Ended::by_answer(alloc, print_reading(alloc, reading, source, sink))
        }
        Form::CardFile { card } => perform_card(alloc, card, source, sink, unit, card_a, card_b),
        Form::Demo { seed } => perform_demo(alloc, seed, source, sink, unit, card_a, card_b),
        Form::Help => Ended::by_answer(alloc, print_help(sink)),
        Form::Version => Ended::by_answer(alloc, print_version(sink)),
    }
}

/// Does what `record` asks for.
fn perform_record<S: Source, K: Sink, U: Medium, C: Chip>(
    alloc: Global,
    source: &mut S,
    sink: &mut K,
    unit: &mut U,
    card_a: &mut C,
    card_b: &mut C,
) -> Ended
    requires { AreDevices (U.state unit.old) (C.state card_a.old) (C.state card_b.old) }
    ensures does { Does (tells S.left S.faults K.held K.faults U.state C.state C.card) (Some FormOfRecord)
        (handed source.old sink.old unit.old card_a.old card_b.old)
        (handed source.new sink.new unit.new card_a.new card_b.new) result }
{
    let mut outcome = Outcome::empty(alloc);
    let done = record(alloc, source, sink, unit, card_a, card_b, &mut outcome);
    Ended::after(alloc, outcome, done)
}

/// Does what `format a` or `format b` asks for; it uses the card and the sink alone.
fn perform_format<S: Source, K: Sink, U: Medium, C: Chip>(
    alloc: Global,
    card: Card,
    identity: &CardIdentity,
    source: &mut S,
    sink: &mut K,
    unit: &mut U,
    card_a: &mut C,
    card_b: &mut C,
) -> Ended
    requires { AreDevices (U.state unit.old) (C.state card_a.old) (C.state card_b.old) }
    ensures does { Does (tells S.left S.faults K.held K.faults U.state C.state C.card)
        (Some (FormOfFormat card identity.now))
        (handed source.old sink.old unit.old card_a.old card_b.old)
        (handed source.new sink.new unit.new card_a.new card_b.new) result }
{
    match card {
        Card::A => Ended::by_answer(
            alloc,
            format_card(alloc, identity, Device::CardA, card_a, sink),
        ),
        Card::B => Ended::by_answer(
            alloc,
            format_card(alloc, identity, Device::CardB, card_b, sink),
        ),
    }
}

/// Does what `card a` or `card b` asks for; it uses the card and the sink alone.
fn perform_card<S: Source, K: Sink, U: Medium, C: Chip>(
    alloc: Global,
    card: Card,
    source: &mut S,
    sink: &mut K,
    unit: &mut U,
    card_a: &mut C,
    card_b: &mut C,
) -> Ended
    requires { AreDevices (U.state unit.old) (C.state card_a.old) (C.state card_b.old) }
    ensures does { Does (tells S.left S.faults K.held K.faults U.state C.state C.card) (Some (FormOfCard card))
        (handed source.old sink.old unit.old card_a.old card_b.old)
        (handed source.new sink.new unit.new card_a.new card_b.new) result }
{
    match card {
        Card::A => Ended::by_fault(
            alloc,
            card_end(Device::CardA, write_card_file(card_a, sink)),
        ),
        Card::B => Ended::by_fault(
            alloc,
            card_end(Device::CardB, write_card_file(card_b, sink)),
        ),
    }
}

/// Does what `serve card a` or `serve card b` asks for; it uses the source, the sink and the card alone.
fn perform_slot<S: Peer<K>, K: Sink, U: Medium, C: Chip>(
    alloc: Global,
    card: Card,
    source: &mut S,
    sink: &mut K,
    unit: &mut U,
    card_a: &mut C,
    card_b: &mut C,
) -> Ended
    ensures does { Does (tells S.left S.faults K.held K.faults U.state C.state C.card) (Some (FormOfSlot card))
        (handed source.old sink.old unit.old card_a.old card_b.old)
        (handed source.new sink.new unit.new card_a.new card_b.new) result }
    ensures in_time { AnswersWaiting (Some (FormOfSlot card))
        (outside S.left S.faults K.held K.faults U.state C.state C.card source.old sink.old unit.old card_a.old
        card_b.old)
        (outside S.left S.faults K.held K.faults U.state C.state C.card source.new sink.new unit.new card_a.new
        card_b.new) (S.asked source.old) (S.asked source.new) }
{
    match card {
        Card::A => Ended::by_fault(
            alloc,
            slot_end(Device::CardA, serve_card(source, sink, card_a)),
        ),
        Card::B => Ended::by_fault(
            alloc,
            slot_end(Device::CardB, serve_card(source, sink, card_b)),
        ),
    }
}

/// Does what `demo` asks for; it uses the sink and the devices alone.
fn perform_demo<S: Source, K: Sink, U: Medium, C: Chip>(
    alloc: Global,
    seed: u32,
    source: &mut S,
    sink: &mut K,
    unit: &mut U,
    card_a: &mut C,
    card_b: &mut C,
) -> Ended
    requires { AreDevices (U.state unit.old) (C.state card_a.old) (C.state card_b.old) }
    ensures does { Does (tells S.left S.faults K.held K.faults U.state C.state C.card) (Some (FormOfDemo seed))
        (handed source.old sink.old unit.old card_a.old card_b.old)
        (handed source.new sink.new unit.new card_a.new card_b.new) result }
{
    let mut outcome = Outcome::empty(alloc);
    let done = demo(
        alloc,
        seed,
        source,
        sink,
        unit,
        card_a,
        card_b,
        &mut outcome,
    );
    Ended::after(alloc, outcome, done)
}
