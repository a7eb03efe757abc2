//! One command to a chip, and its answer.
ghost use Rattle.std.specs.Prelude.{◌^◌, ◌≡◌, ◌≤◌, ◌<◌, ◌+◌, true, length, Some, OnOk, OnErr, IfSome, is_err};
ghost use Rattle.card_commands.specs.declared.port.TheConstants.{READ_MOST, WRITE_MOST};
ghost use Rattle.tach_media.specs.Medium.{Reads, bytes_at};
ghost use Rattle.card_layout.specs.Outcomes.{command_outcome, in_directory, found, is_application, Fixes};
ghost use Rattle.tach_media.specs.Chip.{Does, WritesAt};
ghost use Rattle.card_layout.specs.declared.command.Command.TheVariants.{Update};
ghost use Rattle.card_commands.specs.Written.{IsWritable};
ghost use Rattle.card_commands.specs.Sending.{IsSent};

use crate::codec::{write_command, write_update};
use card_layout::{Command, Directory, ElementaryFile, Fid};
use tach_media::{Answer, Chip, Failed};

/// Sends a command and takes its answer.
fn send<C: Chip>(chip: &mut C, command: &Command, answer: &mut Answer) -> Result<(), Failed>
    requires { IsWritable command.now }
    ensures sent { OnOk result (IsSent command.now (C.state chip.old).image (C.card chip.old) (C.card chip.new)
        answer.new.items) }
    ensures image { Does (command_outcome (C.card chip.old) command.now).effect (C.state chip.old) (C.state chip.new)
        (is_err result) }
    ensures kept { OnErr result (C.card chip.new ≡ C.card chip.old) }
{
    chip.transmit(&write_command(command), answer)
}

/// Makes a directory current.
///
/// # Errors
///
/// `Failed` where the call on the chip failed.
pub fn enter<C: Chip>(chip: &mut C, directory: Directory) -> Result<(), Failed>
    ensures card { OnOk result (C.card chip.new ≡ in_directory directory (C.card chip.old)) }
    ensures reads { Reads (C.state chip.old) (C.state chip.new) (is_err result) }
    ensures kept { OnErr result (C.card chip.new ≡ C.card chip.old) }
{
    let command = match directory {
        Directory::Master => Command::Select(Fid(0x3F00)),
        Directory::Tachograph => Command::Application,
    };
    send(chip, &command, &mut Answer::new())
}

/// Selects a file under the current directory.
///
/// # Errors
///
/// `Failed` where the call on the chip failed.
pub fn select<C: Chip>(chip: &mut C, file: ElementaryFile) -> Result<(), Failed>
    requires { found (C.card chip.old) file.fid ≡ Some file }
    ensures card { OnOk result (C.card chip.new ≡ record (C.card chip.old) { selected = Some file }) }
    ensures reads { Reads (C.state chip.old) (C.state chip.new) (is_err result) }
    ensures kept { OnErr result (C.card chip.new ≡ C.card chip.old) }
{
    send(chip, &Command::Select(file.fid), &mut Answer::new())
}

/// Reads at most 256 bytes of the selected file.
///
/// # Errors
///
/// `Failed` where the call on the chip failed.
pub fn read<C: Chip>(
    chip: &mut C,
    file: ElementaryFile,
    offset: u16,
    out: &mut [u8],
) -> Result<(), Failed>
    requires selected { (C.card chip.old).selected ≡ Some file }
    requires some { 0 < length out.old }
    requires few { length out.old ≤ READ_MOST }
    requires inside { offset + length out.old ≤ file.range.len }
    requires near { offset < 2 ^ 15 }
    ensures bytes { OnOk result (IfSome (C.state chip.old).image
        (λ x. out.new ≡ bytes_at x (file.range.base + offset) (length out.old))) }
    ensures card { OnOk result (C.card chip.new
        ≡ record (C.card chip.old) { application = (C.card chip.new).application }) }
    ensures sizes { OnOk result (Fixes (is_application file) (C.state chip.old).image (C.card chip.old).application
        (C.card chip.new).application) }
    ensures told { OnOk result (is_application file ≡ true
        → IfSome (C.card chip.new).application (λ bytes. out.new ≡ bytes_at bytes offset (length out.old))) }
    ensures reads { Reads (C.state chip.old) (C.state chip.new) (is_err result) }
    ensures kept { OnErr result (C.card chip.new ≡ C.card chip.old) }
{
    let len = out.len();
    let mut answer = Answer::new();
    let command = Command::Read {
        offset,
        len: len as u16,
    };
    send(chip, &command, &mut answer)?;
    out.copy_from_slice(&answer.as_slice()[..len]);
    Ok(())
}

/// Writes at most 255 bytes to the selected file, which may be updated.
///
/// # Errors
///
/// `Failed` where the call on the chip failed.
pub fn update<C: Chip>(
    chip: &mut C,
    file: ElementaryFile,
    offset: u16,
    bytes: &[u8],
) -> Result<(), Failed>
    requires selected { (C.card chip.old).selected ≡ Some file }
    requires updated { file.updated ≡ true }
    requires some { 0 < length bytes.now }
    requires few { length bytes.now ≤ WRITE_MOST }
    requires inside { offset + length bytes.now ≤ file.range.len }
    requires near { offset < 2 ^ 15 }
    ensures writes { WritesAt (file.range.base + offset) bytes.now (C.state chip.old) (C.state chip.new)
        (is_err result) }
    ensures card { C.card chip.new ≡ C.card chip.old }
{
    send_update(chip, offset, bytes, &mut Answer::new())
}

/// Sends an update and takes its answer.
fn send_update<C: Chip>(
    chip: &mut C,
    offset: u16,
    bytes: &[u8],
    answer: &mut Answer,
) -> Result<(), Failed>
    requires near { offset < 2 ^ 15 }
    requires some { 0 < length bytes.now }
    requires few { length bytes.now ≤ WRITE_MOST }
    ensures sent { OnOk result (IsSent (Update offset (record { items = bytes.now })) (C.state chip.old).image
        (C.card chip.old) (C.card chip.new) answer.new.items) }
    ensures image { Does (command_outcome (C.card chip.old) (Update offset (record { items = bytes.now }))).effect
        (C.state chip.old) (C.state chip.new) (is_err result) }
    ensures kept { OnErr result (C.card chip.new ≡ C.card chip.old) }
{
    chip.transmit(&write_update(offset, bytes), answer)
}
