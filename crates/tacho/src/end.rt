//! How the top call ends.
use run_model::Device;
use run_outcome::Outcome;
use std::alloc::{AllocError, Global};
use tach_media::Memory;
use tacho_types::FullCardNumber;
use unit_download::Wire;

/// Why the call ended.
#[derive(Clone, Copy, Debug, PartialEq, Eq)]
pub enum Fault {
    /// All was done.
    Done,
    /// The words are no form that is known.
    Usage,
    /// This line, from 1, is the first outside the grammar of a trace, or of `serve --hex` the first that spells no
    /// bytes.
    BadTrace(u32),
    /// At this line of the trace, from 1, a limit is passed first. 0 tells of no line: the source has more than
    /// 16777216 bytes, or of `serve packets` and `download packets` a datagram has more than 264, or 4294967295 reads
    /// were made, or of `serve card` 18446744073709551615.
    TooLong(u32),
    /// The unit's image does not decode: the place of the first field, in order of places, that fails.
    BadUnit(u32),
    /// The unit's last-kept minute, and the trace's first second (since 1970-01-01 00:00 GMT), whose minute is not
    /// later.
    ClockBack(u32, u32),
    /// Both cards are valid and have this number.
    SameCard(FullCardNumber),
    /// The source failed.
    ReadFault,
    /// The sink failed.
    WriteFault,
    /// The source is no file that the form reads: the place of the first message or entry that is not in its grammar,
    /// or the file's length where a needed entry is missing; 0 where `view manual` is given a unit file.
    BadFile(u32),
    /// The card's Application_Identification is bad: the number, from 1, of the first field that is out of its range.
    BadCard(u8),
    /// This device failed.
    MediumFault(Device),
    /// Out of memory.
    Memory,
    /// The unit gave no answer to a frame of the loader, or one that the loader refuses.
    Changed,
    /// The file of a download by packets failed.
    FileFault,
    /// The source of a download by packets ended before the download did, or that of `serve card` inside a packet.
    LinkEnded,
}

impl From<AllocError> for Fault {
    ghost use Rattle.std.specs.Prelude.{◌≡◌};
    ghost use Rattle.tacho.specs.declared.end.Fault.{Fault};

    ghost from_gives = { λ _ fault. fault ≡ Fault.Memory };

    fn from(_error: AllocError) -> Fault {
        Fault::Memory
    }
}

impl From<Memory> for Fault {
    ghost use Rattle.std.specs.Prelude.{◌≡◌};
    ghost use Rattle.tacho.specs.declared.end.Fault.{Fault};

    ghost from_gives = { λ _ fault. fault ≡ Fault.Memory };

    fn from(_memory: Memory) -> Fault {
        Fault::Memory
    }
}

/// How the call ended.
#[derive(Drop)]
pub struct Ended {
    /// The program's status: 0, or by the fault.
    pub status: u8,
    /// Why it ended.
    pub fault: Fault,
    /// What `record` or `demo` recorded; no line where another form was asked for.
    pub outcome: Outcome,
    /// The frames that passed in a `download`, in their order; none where another form was asked for.
    pub wire: Wire,
}

impl Ended {
    ghost use Rattle.std.specs.Prelude.{◌≡◌};
    ghost use Rattle.run_outcome.specs.declared.outcome.Outcome.{Outcome as OfRun};
    ghost use Rattle.tacho.specs.End.{ended_by, ended_with, end_of};
    ghost use Rattle.tacho.specs.Outcomes.{IsEmpty};

    /// The end by this fault, with this outcome and these frames.
    pub fn with(outcome: Outcome, wire: Wire, fault: Fault) -> Self
        ensures { result ≡ ended_with outcome wire fault }
    {
        let status = match fault {
            Fault::Done => 0,
            Fault::Usage => 2,
            Fault::BadTrace(_) => 3,
            Fault::TooLong(_) => 3,
            Fault::BadUnit(_) => 4,
            Fault::ClockBack(_, _) => 5,
            Fault::SameCard(_) => 6,
            Fault::ReadFault => 7,
            Fault::WriteFault => 8,
            Fault::MediumFault(_) => 9,
            Fault::Memory => 10,
            Fault::BadFile(_) => 11,
            Fault::BadCard(_) => 12,
            Fault::Changed => 13,
            Fault::FileFault => 8,
            Fault::LinkEnded => 14,
        };
        Ended {
            status,
            fault,
            outcome,
            wire,
        }
    }

    /// The end by this fault, with this outcome; no frame passed.
    pub fn of(alloc: Global, outcome: Outcome, fault: Fault) -> Self
        ensures { result ≡ ended_by outcome fault }
    {
        Ended::with(outcome, Wire::new(alloc), fault)
    }

    /// The end by what a command answers.
    pub fn after(alloc: Global, outcome: Outcome, done: Result<(), Fault>) -> Self
        ensures { result ≡ ended_by outcome (end_of done) }
    {
        match done {
            Ok(()) => Ended::of(alloc, outcome, Fault::Done),
            Err(fault) => Ended::of(alloc, outcome, fault),
        }
    }

    /// The end by this fault of a command that records nothing.
    pub fn by_fault(alloc: Global, fault: Fault) -> Self
        ensures { (outcome : OfRun) × IsEmpty outcome × (result ≡ ended_by outcome fault) }
    {
        Ended::of(alloc, Outcome::empty(alloc), fault)
    }

    /// The end by what a command answers that records nothing.
    pub fn by_answer(alloc: Global, done: Result<(), Fault>) -> Self
        ensures { (outcome : OfRun) × IsEmpty outcome × (result ≡ ended_by outcome (end_of done)) }
    {
        Ended::after(alloc, Outcome::empty(alloc), done)
    }

    /// The end by this fault of a download, behind the frames that passed.
    pub fn by_wire(alloc: Global, wire: Wire, fault: Fault) -> Self
        ensures { (outcome : OfRun) × IsEmpty outcome × (result ≡ ended_with outcome wire fault) }
    {
        Ended::with(Outcome::empty(alloc), wire, fault)
    }
}
