//! The lines on standard error that the program itself prints. Some help alone whoever sits at a terminal: where standard
//! error is none, they are left out.
use crate::end::{Ended, Fault};
use crate::hints::{Hint, hint_of, hint_text};
use crate::images::{CARD_A, CARD_B, Copies, Image, Node, UNIT, copies_of};
use crate::sources::{NamedFiles, reason, takes_names};
use crate::words::Words;
use failure_lines::{put_failures, put_refusals, put_turned_away};
use run_model::Device;
use std::io::IsTerminal;
use std::{io, str};
use tach_media::StdSink;
use tacho_types::{FullCardNumber, write_card_number};

/// What was refused, turned away or failed in a run, a line each.
pub fn tell_run(rt: &HostRuntime, ended: &Ended) {
    let _ = put_refusals(&mut StdSink::new(rt.stderr()), &ended.outcome.refused);
    let _ = put_turned_away(&mut StdSink::new(rt.stderr()), &ended.outcome.finds);
    let _ = put_failures(&mut StdSink::new(rt.stderr()), &ended.outcome.breaks);
}

/// The line of a device whose file was taken away, if it was.
pub fn tell_elsewhere(rt: &HostRuntime, image: Image, is_elsewhere: bool) {
    let name = image.path;
    if is_elsewhere {
        let _ = eprintln!(rt; "{name} is another file now");
    }
}

/// A line at a terminal for each copy that was made of what a device held: it is another file than before.
pub fn tell_copies(rt: &HostRuntime, before: &Copies) {
    let now = copies_of(rt);
    tell_copy(rt, UNIT, before.unit, now.unit);
    tell_copy(rt, CARD_A, before.card_a, now.card_a);
    tell_copy(rt, CARD_B, before.card_b, now.card_b);
}

/// The same of one device.
fn tell_copy(rt: &HostRuntime, image: Image, before: Option<Node>, now: Option<Node>) {
    let name = image.copy.path;
    if now.is_some() && now != before && rt.stderr().is_terminal() {
        let _ = eprintln!(rt; "what it held is in {name}");
    }
}

/// A line, before a form waits that reads a file, where a terminal is both its input and standard error.
pub fn tell_waiting(rt: &HostRuntime, words: &Words) {
    if words.is_empty() || !takes_names(words) {
        return;
    }
    let command = words.get(0);
    if rt.stdin().is_terminal() && rt.stderr().is_terminal() {
        let _ = eprintln!(rt; "reads a file from standard input, as in: tacho {command} < FILE");
    }
}

/// The end: the line of a file that could not be read, the fault's line, the line that tells in which of several files
/// it is, and what helps behind `usage`.
pub fn tell_end(
    rt: &HostRuntime,
    words: &Words,
    fault: Fault,
    named: Option<&NamedFiles<'_, HostRuntime>>,
) {
    if let Some(named) = named {
        tell_unread(rt, named);
    }
    let _ = tell_fault(rt, fault);
    if let Some(named) = named {
        tell_place(rt, fault, named);
    }
    if matches!(fault, Fault::Usage) {
        tell_hint(rt, words);
    }
}

/// The line of a file that could not be opened or read, if there is one.
fn tell_unread(rt: &HostRuntime, named: &NamedFiles<'_, HostRuntime>) {
    if let Some((name, kind)) = named.refusal() {
        let why = reason(kind);
        let _ = eprintln!(rt; "{name}: {why}");
    }
}

/// The line that tells in which of the named files, and where in it, what a fault names stands.
fn tell_place(rt: &HostRuntime, fault: Fault, named: &NamedFiles<'_, HostRuntime>) {
    let found = match fault {
        Fault::BadFile(place) => named.find_place(place),
        Fault::BadTrace(line) => named.find_line(line),
        _ => None,
    };
    if let Some((name, place)) = found {
        let _ = eprintln!(rt; "in {name} at {place}");
    }
}

/// What helps behind `usage`, at a terminal.
fn tell_hint(rt: &HostRuntime, words: &Words) {
    if !rt.stderr().is_terminal() {
        return;
    }
    match hint_of(words) {
        Hint::NoCommand => {
            let _ = tell_no_command(rt, words);
        }
        Hint::OneMore => {
            let _ = tell_form(rt, words);
        }
        hint => {
            let text = hint_text(hint);
            let _ = eprintln!(rt; "{text}");
        }
    }
}

/// That the first word is no command.
fn tell_no_command(rt: &HostRuntime, words: &Words) -> io::Result<()> {
    if words.is_empty() {
        return Ok(());
    }
    let command = words.get(0);
    eprintln!(rt; "{command} is no command; try: tacho help")
}

/// How the words before the last one read a file.
fn tell_form(rt: &HostRuntime, words: &Words) -> io::Result<()> {
    if let Some((command, _file)) = words.two() {
        return eprintln!(rt; "try: tacho {command} < FILE");
    }
    if let Some((command, which, _file)) = words.three() {
        return eprintln!(rt; "try: tacho {command} {which} < FILE");
    }
    Ok(())
}

/// The line of two cards of one number, which is told in 36 hexadecimal digits.
fn tell_same_card(rt: &HostRuntime, number: &FullCardNumber) -> io::Result<()> {
    let mut bytes = [0; FullCardNumber::SIZE];
    write_card_number(number, &mut bytes);
    let mut digits = [0; 2 * FullCardNumber::SIZE];
    let _ = hex::encode_to_slice(&bytes, &mut digits);
    match str::from_utf8(&digits) {
        Ok(text) => eprintln!(rt; "same card {text}"),
        Err(_) => Ok(()),
    }
}

/// The fault's line on standard error.
fn tell_fault(rt: &HostRuntime, fault: Fault) -> io::Result<()> {
    match fault {
        Fault::Done => Ok(()),
        Fault::Usage => eprintln!(rt; "usage"),
        Fault::BadTrace(n) => eprintln!(rt; "bad line {n}"),
        Fault::TooLong(n) => eprintln!(rt; "too long at line {n}"),
        Fault::BadUnit(place) => eprintln!(rt; "bad unit at {place}"),
        Fault::ClockBack(kept, second) => eprintln!(rt; "clock back, kept {kept}, start {second}"),
        Fault::SameCard(number) => tell_same_card(rt, &number),
        Fault::ReadFault => eprintln!(rt; "read fault"),
        Fault::WriteFault => eprintln!(rt; "write fault"),
        Fault::MediumFault(Device::Unit) => eprintln!(rt; "medium fault unit"),
        Fault::MediumFault(Device::CardA) => eprintln!(rt; "medium fault card-a"),
        Fault::MediumFault(Device::CardB) => eprintln!(rt; "medium fault card-b"),
        Fault::Memory => eprintln!(rt; "out of memory"),
        Fault::BadFile(place) => eprintln!(rt; "bad file at {place}"),
        Fault::BadCard(field) => eprintln!(rt; "bad card field {field}"),
        Fault::Changed => eprintln!(rt; "unit changed"),
        Fault::FileFault => eprintln!(rt; "write fault unit.ddd"),
        Fault::LinkEnded => eprintln!(rt; "link ended"),
    }
}
