use gated_ring::{Ring, RingFault};
use std::alloc::Global;
use std::process::Abort;
use std::test::Fail;
use tach_media::{Failed, Left, Medium, MemMedium, Memory, Stop};

const LEFT: [Left; 3] = [Left::Before, Left::After, Left::Torn(0x55)];

/// A ring of three places behind two bytes: a pointer of one byte, and entries of a byte, the gate and a byte. Three
/// bytes stand behind it.
fn image(pointer: u8, marks: [u8; 3]) -> [u8; 24] {
    let [a, b, c] = marks;
    [
        0xEE, 0xEE, pointer, a, 0, 0, 0, a, a, b, 0, 0, 0, b, b, c, 0, 0, 0, c, c, 0xEE, 0xEE, 0xEE,
    ]
}

// A medium of these bytes, whose call of that number fails.
fn medium(alloc: Global, bytes: &[u8; 24], call: u64, left: Left) -> Result<MemMedium, Memory> {
    let mut stops = Vec::new(alloc);
    stops.push(Stop { call, left }).map_err(|_| Memory)?;
    let mut image = Vec::new(alloc);
    image.extend_from_slice(bytes)?;
    MemMedium::new(alloc, image, 16, 128, stops)
}

// Loads the ring and adds an entry of this mark.
fn add(medium: &mut MemMedium, mark: u8) -> Result<u32, Failed> {
    if medium.size() < 24 || mark == 0 {
        return Err(Failed);
    }
    let mut ring = Ring::load(medium, 2, 6, 3, 1, 1).map_err(|_| Failed)?;
    ring.add(medium, &[mark, 0, 0, 0, mark, mark])
}

// The bytes of a medium that works again. A stop that was not reached yet may come in the first read.
fn bytes(medium: &mut MemMedium) -> Result<[u8; 24], Failed> {
    let mut out = [0; 24];
    medium.revive()?;
    if medium.size() < 24 {
        return Err(Failed);
    }
    if medium.read_at(0, &mut out).is_err() {
        medium.revive()?;
        medium.read_at(0, &mut out)?;
    }
    Ok(out)
}

// The mark of each entry by its place, 0 where none is there.
fn marks_of(bytes: &[u8; 24]) -> [u8; 3] {
    let [
        _,
        _,
        _,
        a,
        a1,
        a2,
        a3,
        a4,
        _,
        b,
        b1,
        b2,
        b3,
        b4,
        _,
        c,
        c1,
        c2,
        c3,
        c4,
        ..
    ] = *bytes;
    let mark = |mark: u8, gate: [u8; 4]| if gate == [0; 4] { 0 } else { mark };
    [
        mark(a, [a1, a2, a3, a4]),
        mark(b, [b1, b2, b3, b4]),
        mark(c, [c1, c2, c3, c4]),
    ]
}

// The marks of the entries that are there, the oldest first; 0 behind them.
fn list(bytes: &[u8; 24]) -> [u8; 3] {
    let [a, b, c] = marks_of(bytes);
    match bytes[2] {
        0 => packed([b, c, a]),
        1 => packed([c, a, b]),
        _ => packed([a, b, c]),
    }
}

// The marks that are not 0, and then zeros.
fn packed(marks: [u8; 3]) -> [u8; 3] {
    match marks {
        [0, 0, c] => [c, 0, 0],
        [0, b, c] => [b, c, 0],
        [a, 0, c] => [a, c, 0],
        all => all,
    }
}

// A list without its first entry where it is full, and a new one behind it.
fn with(list: [u8; 3], mark: u8) -> [u8; 3] {
    match list {
        [0, ..] => [mark, 0, 0],
        [a, 0, _] => [a, mark, 0],
        [a, b, 0] => [a, b, mark],
        [_, b, c] => [b, c, mark],
    }
}

struct Row {
    pointer: u8,
    marks: [u8; 3],
    // before, without the entry whose place is taken, and after
    before: [u8; 3],
    without: [u8; 3],
    after: [u8; 3],
}

const ROWS: [Row; 6] = [
    // empty
    Row {
        pointer: 0,
        marks: [0, 0, 0],
        before: [0, 0, 0],
        without: [0, 0, 0],
        after: [9, 0, 0],
    },
    // with room
    Row {
        pointer: 0,
        marks: [1, 0, 0],
        before: [1, 0, 0],
        without: [1, 0, 0],
        after: [1, 9, 0],
    },
    // full
    Row {
        pointer: 2,
        marks: [1, 2, 3],
        before: [1, 2, 3],
        without: [2, 3, 0],
        after: [2, 3, 9],
    },
    // full and wrapped
    Row {
        pointer: 0,
        marks: [3, 1, 2],
        before: [1, 2, 3],
        without: [2, 3, 0],
        after: [2, 3, 9],
    },
    // no entry at the pointer's index
    Row {
        pointer: 1,
        marks: [1, 0, 0],
        before: [1, 0, 0],
        without: [1, 0, 0],
        after: [1, 9, 0],
    },
    Row {
        pointer: 1,
        marks: [2, 0, 1],
        before: [1, 2, 0],
        without: [1, 2, 0],
        after: [1, 2, 9],
    },
];

// As many calls as an `add` or a `put_at` makes, with the `load` before it; at the last of these numbers no call of it
// fails.
const CALLS: u64 = 9;

// An `add` that may stop: whether it was made, the list behind it, and the bytes behind another one.
#[derive(Clone, Copy)]
struct Added {
    made: bool,
    found: [u8; 3],
    again: [u8; 24],
}

// What an `add` leaves whose call of that number fails, and another one behind it.
fn stopped_add(
    rt: &impl Abort,
    alloc: Global,
    row: &Row,
    call: u64,
    left: Left,
) -> Result<Added, Memory> {
    let mut medium = medium(alloc, &image(row.pointer, row.marks), call, left)?;
    let made = add(&mut medium, 9).is_ok();
    let found = list(&bytes(&mut medium).expect(rt, "revived"));
    assert!(rt; add(&mut medium, 8).is_ok());
    let again = bytes(&mut medium).expect(rt, "read");
    Ok(Added { made, found, again })
}

// An `add` leaves one of three lists, and where it was made the last of them.
fn is_one_of_three(rt: &impl Abort, row: &Row, found: [u8; 3], made: bool) {
    let left = !made && (found == row.before || found == row.without);
    assert!(rt; left || found == row.after);
}

// Another one adds its entry behind that, and nothing else of the medium changes.
fn is_behind(rt: &impl Abort, found: [u8; 3], again: &[u8; 24]) {
    assert!(rt; list(again) == with(found, 8));
    assert!(rt; again[..2] == [0xEE; 2] && again[21..] == [0xEE; 3]);
}

// An `add` to a ring stops at each of its calls.
fn adds(rt: &impl Abort, alloc: Global, row: &Row, left: Left) -> Result<(), Memory> {
    for call in 0..=CALLS {
        let added = stopped_add(rt, alloc, row, call, left)?;
        assert!(rt; added.made || call < CALLS);
        is_one_of_three(rt, row, added.found, added.made);
        is_behind(rt, added.found, &added.again);
        if added.made {
            break;
        }
    }
    Ok(())
}

#[test]
fn a_stopped_add_leaves_one_of_three_lists(rt: HostRuntime) -> Result<(), Fail> {
    for row in &ROWS {
        for left in LEFT {
            adds(&rt, rt.alloc(), row, left)?;
        }
    }
    Ok(())
}

// Loads a ring without a pointer, at the place behind one, and puts an entry of this mark into it.
fn put(medium: &mut MemMedium, index: u32, mark: u8, pointer_width: u8) -> Result<(), Failed> {
    if medium.size() < 24 || index > 2 || mark == 0 || pointer_width > 1 {
        return Err(Failed);
    }
    let base = 3 - pointer_width as u32;
    let mut ring = Ring::load(medium, base, 6, 3, pointer_width, 1).map_err(|_| Failed)?;
    ring.put_at(medium, index, &[mark, 0, 0, 0, mark, mark])
}

// A ring, by its marks and the width of its pointer.
#[derive(Clone, Copy)]
struct Marked {
    marks: [u8; 3],
    pointer_width: u8,
}

// A `put_at` that may stop: whether it was made, the marks behind it, and the bytes behind another one.
#[derive(Clone, Copy)]
struct Placed {
    made: bool,
    found: [u8; 3],
    again: [u8; 24],
}

// What a `put_at` of the first entry leaves whose call of that number fails, and another one behind it.
fn stopped_put(
    rt: &impl Abort,
    alloc: Global,
    ring: Marked,
    call: u64,
    left: Left,
) -> Result<Placed, Memory> {
    let mut medium = medium(alloc, &image(1, ring.marks), call, left)?;
    let made = put(&mut medium, 0, 9, ring.pointer_width).is_ok();
    let found = marks_of(&bytes(&mut medium).expect(rt, "revived"));
    assert!(rt; put(&mut medium, 0, 8, ring.pointer_width).is_ok());
    let again = bytes(&mut medium).expect(rt, "read");
    Ok(Placed { made, found, again })
}

// The first entry is the old one, none or the new one, and each other one is there still.
fn changes_one(rt: &impl Abort, marks: [u8; 3], found: [u8; 3], made: bool) {
    let [first, second, third] = found;
    let old = !made && (first == marks[0] || first == 0);
    assert!(rt; (old || first == 9) && second == marks[1] && third == marks[2]);
}

// A `put_at` into a ring stops at each of its calls.
fn puts(rt: &impl Abort, alloc: Global, ring: Marked, left: Left) -> Result<(), Memory> {
    let marks = ring.marks;
    for call in 0..=CALLS {
        let placed = stopped_put(rt, alloc, ring, call, left)?;
        assert!(rt; placed.made || call < CALLS);
        changes_one(rt, marks, placed.found, placed.made);
        assert!(rt; placed.again == image(1, [8, marks[1], marks[2]]));
        if placed.made {
            break;
        }
    }
    Ok(())
}

/// The same of a put that is stopped in each manner.
fn puts_stopped(rt: &(impl Abort + AllocGlobal), marked: Marked) -> Result<(), Fail> {
    for left in LEFT {
        puts(rt, rt.alloc(), marked, left)?;
    }
    Ok(())
}

#[test]
fn a_stopped_put_changes_one_entry(rt: HostRuntime) -> Result<(), Fail> {
    for marks in [[0, 0, 0], [1, 0, 0], [1, 2, 3], [0, 2, 3]] {
        for pointer_width in 0..2 {
            puts_stopped(
                &rt,
                Marked {
                    marks,
                    pointer_width,
                },
            )?;
        }
    }
    Ok(())
}

// Sets a byte of an entry, shuts the gate of another, and reads the newest index and the entry.
fn change(medium: &mut MemMedium) -> Result<(Option<u32>, bool, [u8; 6]), Failed> {
    if medium.size() < 24 {
        return Err(Failed);
    }
    let mut entry = [0; 6];
    let mut ring = Ring::load(medium, 2, 6, 3, 1, 1).map_err(|_| Failed)?;
    ring.set_small(medium, 1, 5, &[7])?;
    ring.close_gate(medium, 2)?;
    let newest = ring.newest(medium)?;
    let there = ring.entry(medium, 1, &mut entry)?;
    Ok((newest, there, entry))
}

#[test]
fn an_entry_is_set_and_another_closed(rt: HostRuntime) -> Result<(), Fail> {
    let mut medium = medium(rt.alloc(), &image(2, [1, 2, 3]), 99, Left::Before)?;
    let (newest, there, entry) = change(&mut medium).expect(&rt, "no call fails");
    assert!(rt; newest == Some(1) && there && entry == [2, 0, 0, 0, 2, 7]);
    assert!(rt; list(&bytes(&mut medium).expect(&rt, "read")) == [1, 2, 0]);
    Ok(())
}

#[test]
fn a_pointer_at_the_count_is_refused(rt: HostRuntime) -> Result<(), Fail> {
    let mut medium = medium(rt.alloc(), &image(3, [1, 2, 3]), 99, Left::Before)?;
    assert!(rt; medium.size() == 24);
    let loaded = Ring::load(&mut medium, 2, 6, 3, 1, 1);
    assert!(rt; loaded == Err(RingFault::BadPointer(3)));
    Ok(())
}
