ghost use Rattle.std.specs.Prelude.{◌≡◌, IfOk, vec_len};
ghost use Rattle.tach_media.specs.MemMedium.{memory_state};
ghost use Rattle.unit_model.specs.Image.{IsUnit};

use arrayvec::ArrayVec;
use link_frames::Frame;
use std::alloc::{AllocError, Global};
use std::process::Abort;
use std::test::*;
use tach_media::{Medium, MemMedium, Memory};
use tacho_types::Registration;
use unit_memory::{Identity, format_unit};
use unit_messages::{
    BadMessage, JoinFault, Joiner, MessageFault, MessageRead, PieceFault, Request, message, piece,
    read_message, split_at,
};
use unit_model::layout::IMAGE_SIZE;

const IDENTITY: Identity = Identity {
    vin: *b"TACHODEMO00000001",
    registration: Registration(*b"\x0D\x01DEMO         "),
    limit: 90,
};

/// So many zeros.
fn zeros(alloc: Global, count: usize) -> Result<Vec<u8>, AllocError>
    ensures { IfOk result (λ bytes. vec_len bytes ≡ count) }
{
    Ok(vec![in alloc; 0u8; count]?)
}

/// A unit in memory, each byte of which is 0.
fn blank(alloc: Global) -> Result<MemMedium, Memory>
    ensures { IfOk result (λ unit. IsUnit (memory_state unit.log unit.counts)) }
{
    let image = zeros(alloc, IMAGE_SIZE as usize)?;
    MemMedium::new(alloc, image, 700, IMAGE_SIZE + 256, Vec::new(alloc))
}

/// A piece of a message of the unit.
fn given<M: Medium>(
    unit: &mut M,
    request: &Request,
    from: u32,
    out: &mut ArrayVec<u8, 252>,
) -> Result<Option<u32>, PieceFault>
    requires { IsUnit (M.state unit.old) }
    ensures { IsUnit (M.state unit.new) }
{
    piece(unit, request, from, out)
}

/// How a whole message of the unit is read: none, where there is no such message.
fn read<M: Medium>(
    alloc: Global,
    unit: &mut M,
    request: &Request,
) -> Result<Option<Result<MessageRead, BadMessage>>, MessageFault>
    requires { IsUnit (M.state unit.old) }
    ensures { IsUnit (M.state unit.new) }
{
    match message(alloc, unit, request)? {
        None => Ok(None),
        Some(bytes) => Ok(Some(read_message(bytes.as_slice()))),
    }
}

/// A message that is read so.
fn whole(
    request: Request,
    len: u32,
) -> Result<Option<Result<MessageRead, BadMessage>>, MessageFault> {
    Ok(Some(Ok(MessageRead { request, len })))
}

/// A whole message of the unit is read so.
fn reads<M: Medium>(rt: &impl Abort, alloc: Global, unit: &mut M, request: Request, len: u32)
    requires { IsUnit (M.state unit.old) }
    ensures { IsUnit (M.state unit.new) }
{
    assert_eq!(rt; read(alloc, unit, &request), whole(request, len));
}

/// A piece of a message of the unit, from a place on, is answered so, and then these bytes are there.
fn gives<M: Medium>(
    rt: &impl Abort,
    unit: &mut M,
    asked: (Request, u32),
    out: &mut ArrayVec<u8, 252>,
    wanted: (Result<Option<u32>, PieceFault>, &[u8]),
)
    requires { IsUnit (M.state unit.old) }
    ensures { IsUnit (M.state unit.new) }
{
    let (request, from) = asked;
    assert_eq!(rt; given(unit, &request, from, out), wanted.0);
    assert_eq!(rt; out.as_slice(), wanted.1);
}

/// Pieces of the messages of a unit that is nothing yet, and of a new one, which has no day.
fn new_unit<M: Medium>(rt: &impl Abort, unit: &mut M)
    requires { IsUnit (M.state unit.old) }
    ensures { IsUnit (M.state unit.new) }
{
    let mut out = ArrayVec::new();
    let nothing = (Err(PieceFault::BadUnit(0)), [].as_slice());
    gives(rt, unit, (Request::Technical, 0), &mut out, nothing);
    assert!(rt; format_unit(unit, &IDENTITY).is_ok());
    let last = (Ok(Some(267)), [0; 15].as_slice());
    gives(rt, unit, (Request::Technical, 252), &mut out, last);
    let no_day = (Ok(None), [0; 15].as_slice());
    gives(rt, unit, (Request::Day(0), 0), &mut out, no_day);
    let end = (Ok(Some(623)), [].as_slice());
    gives(rt, unit, (Request::Overview, 623), &mut out, end);
}

#[test]
fn sends_a_new_unit(rt: HostRuntime) -> Result<(), Fail> {
    let mut unit = blank(rt.alloc())?;
    new_unit(&rt, &mut unit);
    reads(&rt, rt.alloc(), &mut unit, Request::Overview, 623);
    reads(&rt, rt.alloc(), &mut unit, Request::Events, 143);
    reads(&rt, rt.alloc(), &mut unit, Request::Speed, 132);
    Ok(())
}

/// The first piece of a message of technical data with no calibration, 251 bytes of its content.
fn first_piece() -> [u8; 255] {
    let mut bytes = [0u8; 255];
    bytes[..4].copy_from_slice(&[0x76, 5, 0, 1]);
    bytes[254] = 7;
    bytes
}

/// Its last piece, 14 bytes of its content.
const LAST_PIECE: [u8; 18] = [0x76, 5, 0, 2, 8, 0, 0, 0, 0, 0, 0, 0, 0, 0, 0, 0, 0, 0];

/// The message.
fn technical() -> [u8; 267] {
    let mut bytes = [0u8; 267];
    bytes[..2].copy_from_slice(&[0x76, 5]);
    bytes[252..254].copy_from_slice(&[7, 8]);
    bytes
}

/// The joiner answers the first piece so.
fn takes_first(rt: &impl Abort, joiner: &mut Joiner, wanted: Result<bool, JoinFault>) {
    assert_eq!(rt; joiner.take(&Frame::new(&first_piece())), wanted);
}

/// The joiner answers the last piece so.
fn takes_last(rt: &impl Abort, joiner: &mut Joiner, wanted: Result<bool, JoinFault>) {
    assert_eq!(rt; joiner.take(&Frame::new(&LAST_PIECE)), wanted);
}

/// What was joined is read so.
fn joined(rt: &impl Abort, joiner: &Joiner, wanted: Result<MessageRead, BadMessage>) {
    assert_eq!(rt; read_message(joiner.bytes()), wanted);
}

// A message of technical data with no calibration has 267 bytes: 251 of its content stand in the first piece, and 14 in
// the last.
#[test]
fn a_message_is_split_into_pieces(rt: HostRuntime) {
    assert_eq!(rt; split_at(265, 1), Some((0, 251)));
    assert_eq!(rt; split_at(265, 2), Some((251, 14)));
    assert_eq!(rt; split_at(265, 3), None);
}

#[test]
fn joins_pieces(rt: HostRuntime) {
    let mut joiner = Joiner::new(rt.alloc());
    takes_last(&rt, &mut joiner, Err(JoinFault::Broken(1, 2)));
    takes_first(&rt, &mut joiner, Ok(false));
    takes_first(&rt, &mut joiner, Err(JoinFault::Broken(2, 1)));
    joined(&rt, &joiner, Err(BadMessage(0)));
    takes_last(&rt, &mut joiner, Ok(true));
    assert!(rt; joiner.bytes() == technical().as_slice());
    let request = Request::Technical;
    joined(&rt, &joiner, Ok(MessageRead { request, len: 267 }));
    joiner.clear();
    assert!(rt; joiner.bytes().is_empty());
    takes_first(&rt, &mut joiner, Ok(false));
}
