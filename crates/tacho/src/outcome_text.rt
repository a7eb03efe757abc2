//! What `record` and `demo` print of an outcome: lines of counts.
ghost use Rattle.std.specs.Prelude.{◌≡◌, ◌+◌, ◌≤◌, ◌++◌, length};
ghost use Rattle.arrayvec.specs.ArrayVec.{array_vec_len};
ghost use Rattle.safety_model.specs.Unit.{is_of};
ghost use Rattle.tacho.specs.Outcomes.{count_line, mark_count, outcome_text};
ghost use Rattle.tacho.specs.Demo.{demo_text};

use arrayvec::ArrayVec;
use itoa::Buffer;
use log_model::Mark;
use run_model::Device;
use run_outcome::{Lines, Outcome};
use unit_download::FileSize;

/// The most bytes of the seven lines: 37 of names, and in each line a space, at most 20 digits, and LF.
pub const MOST: usize = 191;

/// The most bytes of the first five.
const FIVE: usize = 139;

/// The five lines of an outcome. They take no memory.
pub fn outcome_text(outcome: &Outcome) -> ArrayVec<u8, MOST>
    ensures items { result.items ≡ outcome_text outcome.now }
    ensures few { array_vec_len result ≤ FIVE }
{
    let marks = &outcome.marks;
    let mut text = ArrayVec::new();
    add_line(&mut text, b"unit", mark_count(marks, Device::Unit));
    add_line(&mut text, b"card-a", mark_count(marks, Device::CardA));
    add_line(&mut text, b"card-b", mark_count(marks, Device::CardB));
    add_line(&mut text, b"breaks", outcome.breaks.len());
    add_line(&mut text, b"refused", outcome.refused.len());
    text
}

/// The seven lines of a demonstration: those of its outcome, and the size of its file.
pub fn demo_text(outcome: &Outcome, size: FileSize) -> ArrayVec<u8, MOST>
    ensures { result.items ≡ demo_text outcome.now size }
{
    let mut text = outcome_text(outcome);
    add_line(&mut text, b"file", size.bytes);
    add_line(&mut text, b"days", size.days);
    text
}

/// Adds a line: what is counted, and how many there are.
fn add_line(text: &mut ArrayVec<u8, MOST>, name: &[u8], count: usize)
    requires { array_vec_len text.old + length name.now + 22 ≤ MOST }
    ensures items { text.new.items ≡ text.old.items ++ count_line name.now count }
    ensures few { array_vec_len text.new ≤ array_vec_len text.old + length name.now + 22 }
{
    let mut digits = Buffer::new();
    let number = digits.format(count);
    add(text, name);
    add(text, b" ");
    add(text, number.as_bytes());
    add(text, b"\n");
}

/// Adds bytes, for which there is room.
fn add(text: &mut ArrayVec<u8, MOST>, bytes: &[u8])
    requires { array_vec_len text.old + length bytes.now ≤ MOST }
    ensures items { text.new.items ≡ text.old.items ++ bytes.now }
    ensures len { array_vec_len text.new ≡ array_vec_len text.old + length bytes.now }
{
    let _ = text.try_extend_from_slice(bytes);
}

/// How many minutes a device has acknowledged.
fn mark_count(marks: &Lines<Mark>, device: Device) -> usize
    ensures { result ≡ mark_count device marks.now.items }
{
    let mut count = 0;
    for i in 0..marks.len() {
        if is_of(device, marks.get(i).device) {
            count += 1;
        }
    }
    count
}

/// Whether two devices are one.
fn is_of(device: Device, other: Device) -> bool
    ensures { result ≡ is_of device other }
{
    match (device, other) {
        (Device::Unit, Device::Unit)
        | (Device::CardA, Device::CardA)
        | (Device::CardB, Device::CardB) => true,
        _ => false,
    }
}
