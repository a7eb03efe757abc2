use activity_codec::{Pick, Slot};
use std::alloc::{AllocError, Global};
use std::process::Abort;
use std::test::Fail;
use tach_media::MemSource;
use trace_text::{Action, Card, Form, Item, Items, Trace, TraceFault, read_trace};

/// What is read of a text.
fn read(alloc: Global, text: &[u8], form: Form) -> Result<Result<Trace, TraceFault>, AllocError> {
    let mut source = MemSource::new(text.to_vec(alloc)?, Vec::new(alloc));
    Ok(read_trace(alloc, &mut source, form))
}

/// How a text of this form is wrong.
fn fault_in(alloc: Global, text: &[u8], form: Form) -> Result<Option<TraceFault>, AllocError> {
    match read(alloc, text, form)? {
        Ok(_) => Ok(None),
        Err(fault) => Ok(Some(fault)),
    }
}

/// A text of this form is wrong so, or right.
fn fails_in(
    rt: &(impl Abort + AllocGlobal),
    text: &[u8],
    form: Form,
    wanted: Option<TraceFault>,
) -> Result<(), AllocError> {
    let fault = fault_in(rt.alloc(), text, form)?;
    assert_eq!(rt; fault, wanted);
    Ok(())
}

/// A text of the whole form is wrong so, or right.
fn fails_so(
    rt: &(impl Abort + AllocGlobal),
    text: &[u8],
    wanted: Option<TraceFault>,
) -> Result<(), AllocError> {
    fails_in(rt, text, Form::Whole, wanted)
}

const DAYS: Item = Item::Run {
    seconds: 34559999,
    speed: 0,
};

const PUT_IN: Item = Item::Run {
    seconds: 1,
    speed: 0,
};

/// What is read of a text of the whole form that is a trace.
fn whole(alloc: Global, text: &[u8]) -> Result<Trace, Fail> {
    match read(alloc, text, Form::Whole)? {
        Ok(trace) => Ok(trace),
        Err(fault) => Err(Fail::from(fault)),
    }
}

/// Each kind of line.
const LINES: &[u8] =
    b"# a day\n\nstart 1267401600\nrun 3600 50\nselect codriver available\ninsert driver a\nwithdraw codriver\noff 60\ntear driver\nplace driver end 0 255\nmanual codriver available 1439";

/// What is read of these lines.
const ITEMS: [Item; 10] = [
    Item::Run {
        seconds: 3600,
        speed: 50,
    },
    Item::Act(Action::Select {
        slot: Slot::CoDriver,
        pick: Pick::Available,
    }),
    Item::Act(Action::Insert {
        slot: Slot::Driver,
        card: Card::A,
    }),
    Item::Act(Action::Withdraw {
        slot: Slot::CoDriver,
    }),
    PUT_IN,
    Item::Off { seconds: 60 },
    Item::Act(Action::Tear { slot: Slot::Driver }),
    Item::Act(Action::Place {
        slot: Slot::Driver,
        ending: true,
        country: 0,
        region: 255,
    }),
    Item::Act(Action::Manual {
        slot: Slot::CoDriver,
        pick: Pick::Available,
        minute: 1439,
    }),
    PUT_IN,
];

/// The items are these.
fn are_items(rt: &impl Abort, items: &Items, wanted: &[Item]) {
    assert_eq!(rt; items.len(), wanted.len());
    for i in 0..wanted.len() {
        assert_eq!(rt; *items.get(i), wanted[i]);
    }
}

#[test]
fn each_kind_of_line_is_read(rt: HostRuntime) -> Result<(), Fail> {
    let trace = whole(rt.alloc(), LINES)?;
    assert_eq!(rt; trace.start, 1267401600);
    are_items(&rt, &trace.items, &ITEMS);
    Ok(())
}

/// Lines that are none behind the start and a run.
const BAD: [&[u8]; 42] = [
    b"start 86399",
    b"start 4294880896",
    b"start 086400",
    b"start  86400",
    b"run 1",
    b"run 1 0 0",
    b"run 0 0",
    b"run 34560001 0",
    b"run 1 256",
    b"run 01 0",
    b"run 1 0 ",
    b"run 1 0\r",
    b"off",
    b"off 0",
    b"off 34560001",
    b"off 1 0",
    b"select driver drive",
    b"select unit work",
    b"select driver",
    b"insert driver c",
    b"insert driver",
    b"insert a driver",
    b"withdraw",
    b"withdraw both",
    b"withdraw driver a",
    b"tear",
    b"tear Driver",
    b"tear driver b",
    b"place driver begin 1",
    b"place driver begin 256 0",
    b"place driver begin 0 256",
    b"manual driver work",
    b"manual driver work 1440",
    b"manual driver drive 300",
    b"manual a work 300",
    b"manual driver work 300 0",
    b"place driver middle 1 1",
    b"place a begin 1 1",
    b"place driver begin 1 1 1",
    b"start 86400",
    b"Run 1 0",
    b" ",
];

/// This line fails behind the start and a run.
fn is_none(rt: &(impl Abort + AllocGlobal), line: &[u8]) -> Result<(), AllocError> {
    let mut text = b"start 86400\nrun 1 0\n".to_vec(rt.alloc())?;
    text.extend_from_slice(line)?;
    fails_so(rt, text.as_slice(), Some(TraceFault::BadLine(3)))
}

#[test]
fn lines_that_are_none(rt: HostRuntime) -> Result<(), Fail> {
    for line in BAD {
        is_none(&rt, line)?;
    }
    Ok(())
}

/// Each line behind `start`, and whether it is one of the form of minutes.
const OF_FORMS: [(&[u8], bool); 8] = [
    (b"start 86400\nrun 1 0", true),
    (b"start 86400\nselect codriver work", true),
    (b"start 86400\noff 1", false),
    (b"start 86400\ninsert driver a", false),
    (b"start 86400\nwithdraw driver", false),
    (b"start 86400\ntear driver", false),
    (b"start 86400\nplace driver begin 1 1", false),
    (b"start 86400\nmanual driver rest 0", false),
];

/// Its second line is wrong in this form, where it is none of its lines.
fn is_of(
    rt: &(impl Abort + AllocGlobal),
    text: &[u8],
    form: Form,
    is: bool,
) -> Result<(), AllocError> {
    let bad = Some(TraceFault::BadLine(2));
    fails_in(rt, text, form, if is { None } else { bad })
}

#[test]
fn each_form_has_its_lines(rt: HostRuntime) -> Result<(), Fail> {
    for (text, of_minutes) in OF_FORMS {
        is_of(&rt, text, Form::Minutes, of_minutes)?;
        is_of(&rt, text, Form::Whole, true)?;
    }
    Ok(())
}

// A limit that is passed before a line of cards comes first, one behind it does not.
#[test]
fn a_line_of_cards_is_told_by_its_number(rt: HostRuntime) -> Result<(), Fail> {
    let texts: [(&[u8], TraceFault); 3] = [
        (
            b"# no cards\nstart 86400\nrun 60 0\nrun 60 0\n\nselect driver work\ninsert driver a\nrun 60 0\n",
            TraceFault::BadLine(7),
        ),
        (
            b"start 86400\nrun 34560000 0\nrun 1 0\ntear driver\n",
            TraceFault::TooLong(3),
        ),
        (
            b"start 86400\nrun 34560000 0\ntear driver\nrun 1 0\n",
            TraceFault::BadLine(3),
        ),
    ];
    for (text, fault) in texts {
        fails_in(&rt, text, Form::Minutes, Some(fault))?;
    }
    Ok(())
}

#[test]
fn a_trace_needs_its_start(rt: HostRuntime) -> Result<(), Fail> {
    let texts: [(&[u8], u32); 4] = [(b"", 1), (b"\n", 2), (b"# none\n\n", 3), (b"run 1 0", 1)];
    for (text, line) in texts {
        fails_so(&rt, text, Some(TraceFault::BadLine(line)))?;
    }
    Ok(())
}

/// A text of the greatest length, whose last second stands behind an action, and a note.
const FULL: &[u8] = b"start 86400\nrun 34560000 0\ntear driver\nselect driver work\n# note\n";

/// This ending of it is wrong so.
fn ending_fails(
    rt: &(impl Abort + AllocGlobal),
    ending: &[u8],
    fault: TraceFault,
) -> Result<(), AllocError> {
    let mut text = FULL.to_vec(rt.alloc())?;
    text.extend_from_slice(ending)?;
    fails_so(rt, text.as_slice(), Some(fault))
}

#[test]
fn a_second_that_is_put_in_counts_to_the_last_action(rt: HostRuntime) -> Result<(), Fail> {
    let endings: [(&[u8], TraceFault); 5] = [
        (b"run 1 0", TraceFault::TooLong(6)),
        (b"off 1", TraceFault::TooLong(4)),
        (b"", TraceFault::TooLong(4)),
        (b"run 1", TraceFault::BadLine(6)),
        (b"\n# end", TraceFault::TooLong(4)),
    ];
    for (ending, fault) in endings {
        ending_fails(&rt, ending, fault)?;
    }
    Ok(())
}

/// The days that are run, and behind an action the last second.
fn has_last(rt: &impl Abort, items: &Items) {
    assert_eq!(rt; items.len(), 3);
    assert_eq!(rt; *items.get(0), DAYS);
    assert_eq!(rt; *items.get(2), PUT_IN);
}

#[test]
fn the_last_second_may_be_put_in(rt: HostRuntime) -> Result<(), Fail> {
    let trace = whole(rt.alloc(), b"start 86400\nrun 34559999 0\ntear driver\n")?;
    has_last(&rt, &trace.items);
    Ok(())
}

#[test]
fn what_is_behind_the_last_second(rt: HostRuntime) -> Result<(), Fail> {
    let texts: [(&[u8], Option<TraceFault>); 4] = [
        (
            b"start 86400\nrun 34559999 0\ntear driver\noff 1",
            Some(TraceFault::TooLong(4)),
        ),
        (b"start 4294880895\nrun 1 0", None),
        (b"start 4294880895\noff 2", Some(TraceFault::TooLong(2))),
        (
            b"start 4294880895\nrun 1 0\nselect driver rest",
            Some(TraceFault::TooLong(3)),
        ),
    ];
    for (text, fault) in texts {
        fails_so(&rt, text, fault)?;
    }
    Ok(())
}

#[test]
fn items_are_listed(rt: HostRuntime) -> Result<(), Fail> {
    let mut items = Items::new(rt.alloc());
    assert!(rt; items.is_empty());
    let item = Item::Run {
        seconds: 1,
        speed: 255,
    };
    items.push(item)?;
    assert_eq!(rt; items.len(), 1);
    assert_eq!(rt; *items.get(0), item);
    Ok(())
}
