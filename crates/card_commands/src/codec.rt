//! Commands in bytes, read and written (Annex IB, Appendix 2, section 3.6).
ghost use Rattle.std.specs.Prelude.{◌^◌, ◌≡◌, ◌<◌, ◌≤◌, ◌+◌, ◌++◌, Ok, IfOk, length, drop};
ghost use Rattle.card_commands.specs.declared.port.TheConstants.{WRITE_MOST};
ghost use Rattle.card_layout.specs.Images.{number_at};
ghost use Rattle.card_layout.specs.Commands.{command_of, meaning, has_good_parameters, has_good_length};
ghost use Rattle.card_layout.specs.declared.command.Command.TheVariants.{Update};
ghost use Rattle.card_commands.specs.Written.{bytes_of, command_with, read_with, IsWritable};

use arrayvec::ArrayVec;
use card_layout::{Command, Fid};

/// The name of DF Tachograph.
const TACHOGRAPH: [u8; 6] = [0xFF, 0x54, 0x41, 0x43, 0x48, 0x4F];

const SELECT: u8 = 0xA4;

const READ_BINARY: u8 = 0xB0;

const UPDATE_BINARY: u8 = 0xD6;

/// P1 of a SELECT by name, and by file identifier; P2, that no answer data is asked for.
const BY_NAME: u8 = 0x04;

const BY_IDENTIFIER: u8 = 0x02;

const NO_DATA: u8 = 0x0C;

/// What a command asks for, but for the data of an update.
#[derive(Clone, Copy, Debug, PartialEq, Eq)]
pub enum Header {
    Application,
    Select(Fid),
    Read { offset: u16, len: u16 },
    Update { offset: u16 },
}

/// Reads the bytes of a command: class, instruction, P1, P2, then a length and data.
///
/// # Errors
///
/// The status word of the first check that the bytes fail: 6700 where there are fewer than five, 6E00 for the class,
/// 6D00 for the instruction, 6A86 for P1 and P2, 6700 for the length, 6A82 for the name of another application.
pub fn read_command(b: &[u8]) -> Result<Command, u16>
    ensures value { result ≡ command_of b.now }
    ensures writable { IfOk result IsWritable }
{
    match read_header(b) {
        Ok(header) => Ok(with_data(header, behind_header(b))),
        Err(status) => Err(status),
    }
}

/// The same without the data of an update.
///
/// # Errors
///
/// The same.
pub fn read_header(b: &[u8]) -> Result<Header, u16>
    ensures value { read_with result (drop 5 b.now) ≡ command_of b.now }
    ensures writable { IfOk result (λ header. IsWritable (command_with header (drop 5 b.now))) }
    ensures few { IfOk result (λ header. length (drop 5 b.now) ≤ WRITE_MOST) }
{
    if b.len() < 5 {
        return Err(0x6700);
    }
    if b[0] != 0x00 {
        return Err(0x6E00);
    }
    if !(b[1] == SELECT || b[1] == READ_BINARY || b[1] == UPDATE_BINARY) {
        return Err(0x6D00);
    }
    if !has_good_parameters(b) {
        return Err(0x6A86);
    }
    if !has_good_length(b) {
        return Err(0x6700);
    }
    if b[1] == SELECT && b[2] == BY_NAME && b[5..] != TACHOGRAPH[..] {
        return Err(0x6A82);
    }
    Ok(meaning(b))
}

/// What is behind a command's header.
pub fn behind_header(b: &[u8]) -> &[u8]
    ensures { result.now ≡ drop 5 b.now }
{
    if b.len() < 5 {
        return b"";
    }
    &b[5..]
}

/// A command with its data.
fn with_data(header: Header, behind: &[u8]) -> Command
    requires { length behind.now ≤ WRITE_MOST }
    ensures { result ≡ command_with header behind.now }
{
    match header {
        Header::Application => Command::Application,
        Header::Select(fid) => Command::Select(fid),
        Header::Read { offset, len } => Command::Read { offset, len },
        Header::Update { offset } => Command::Update {
            offset,
            bytes: held(behind),
        },
    }
}

/// Whether P1 and P2 are those of the instruction.
fn has_good_parameters(b: &[u8]) -> bool
    requires { 5 ≤ length b.now }
    ensures { result ≡ has_good_parameters b.now }
{
    if b[1] == SELECT {
        (b[2] == BY_NAME || b[2] == BY_IDENTIFIER) && b[3] == NO_DATA
    } else {
        b[2] < 0x80
    }
}

/// Whether the length and the number of data bytes are those of the instruction.
fn has_good_length(b: &[u8]) -> bool
    requires { 5 ≤ length b.now }
    ensures { result ≡ has_good_length b.now }
{
    match b[1] {
        SELECT if b[2] == BY_NAME => b[4] == 6 && b.len() == 11,
        SELECT => b[4] == 2 && b.len() == 7,
        READ_BINARY => b.len() == 5,
        _ => b[4] != 0 && b.len() == 5 + b[4] as usize,
    }
}

/// The command that these bytes are, which have passed the checks.
fn meaning(b: &[u8]) -> Header
    requires { command_of b.now ≡ Ok (meaning b.now) }
    ensures { command_with result (drop 5 b.now) ≡ meaning b.now }
{
    match b[1] {
        SELECT if b[2] == BY_NAME => Header::Application,
        SELECT => Header::Select(Fid(two_in(b, 5))),
        READ_BINARY => Header::Read {
            offset: two_in(b, 2),
            len: if b[4] == 0 { 256 } else { b[4] as u16 },
        },
        _ => Header::Update {
            offset: two_in(b, 2),
        },
    }
}

/// The number in two bytes, the highest first.
fn two_in(b: &[u8], place: usize) -> u16
    requires { place + 2 ≤ length b.now }
    ensures { result ≡ number_at b.now place 2 }
{
    u16::from_be_bytes([b[place], b[place + 1]])
}

/// These bytes, for which there is room.
fn held<const ROOM: usize>(bytes: &[u8]) -> ArrayVec<u8, ROOM>
    requires { length bytes.now ≤ ROOM }
    ensures { result.items ≡ bytes.now }
{
    let mut room = ArrayVec::new();
    let _ = room.try_extend_from_slice(bytes);
    room
}

/// Writes a command. Its offset is below 32768, a read is of 1 to 256 bytes, and an update has a byte. Reading what was
/// written gives the command.
pub fn write_command(command: &Command) -> ArrayVec<u8, 260>
    requires { IsWritable command.now }
    ensures bytes { result.items ≡ bytes_of command.now }
    ensures read_back { command_of result.items ≡ Ok command.now }
{
    match command {
        Command::Application => written([0x00, SELECT, BY_NAME, NO_DATA, 6], &TACHOGRAPH),
        Command::Select(fid) => {
            written(
                [0x00, SELECT, BY_IDENTIFIER, NO_DATA, 2],
                &fid.0.to_be_bytes(),
            )
        }
        Command::Read { offset, len } => {
            let [high, low] = offset.to_be_bytes();
            written([0x00, READ_BINARY, high, low, (len % 256) as u8], &[])
        }
        Command::Update { offset, bytes } => write_update(*offset, bytes.as_slice()),
    }
}

/// Writes an update of 1 to 255 bytes.
pub fn write_update(offset: u16, bytes: &[u8]) -> ArrayVec<u8, 260>
    requires near { offset < 2 ^ 15 }
    requires some { 0 < length bytes.now }
    requires few { length bytes.now ≤ WRITE_MOST }
    ensures bytes { result.items ≡ bytes_of (Update offset (record { items = bytes.now })) }
    ensures read_back { command_of result.items ≡ Ok (Update offset (record { items = bytes.now })) }
{
    let [high, low] = offset.to_be_bytes();
    written([0x00, UPDATE_BINARY, high, low, bytes.len() as u8], bytes)
}

/// A header with data behind it.
fn written(header: [u8; 5], bytes: &[u8]) -> ArrayVec<u8, 260>
    requires { length bytes.now ≤ WRITE_MOST }
    ensures { result.items ≡ header ++ bytes.now }
{
    let mut command = held(&header);
    let _ = command.try_extend_from_slice(bytes);
    command
}
