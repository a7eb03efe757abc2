//! The program: it hands its words, its streams and the devices' files to the top call, and ends with its status. On
//! standard error it prints what a device's file lacks, a line for each action of a run that was refused, for each card
//! that was turned away, for each call that failed and for each device whose file was taken away, and the fault's line.
#![tactic(auto)]

ghost use Rattle.std.specs.Prelude.{◌≡◌, ◌<◌, ◌+◌, ◌^◌};
ghost use Rattle.sector_medium.specs.Recovered.{HasRoom};
ghost use Rattle.sector_medium.specs.Redo.{record_place};
ghost use Rattle.tach_media.specs.Medium.{IsUntouched};
ghost use Rattle.tacho.specs.Ending.{program_status};

mod alone;
mod anew;
mod blank;
mod card_command;
mod demo_command;
mod download_command;
mod end;
mod format_command;
mod forms;
mod help_command;
mod hints;
mod images;
mod match_command;
mod minutes;
mod minutes_command;
mod outcome_text;
mod packets_command;
mod printing;
mod reading_command;
mod record_command;
mod report_command;
mod serve_command;
mod show_command;
mod slot_command;
mod sources;
mod state_command;
mod telling;
mod top;
mod upgrade_command;
mod view_command;
mod words;

use card_commands::SimCard;
use card_layout::LARGEST_IMAGE;
use end::{Ended, Fault};
use failure_lines::put_missing;
use forms::{Form, form_of};
use images::{CARD_A, CARD_B, Image, NO_FILE, UNIT, copies_of, download_name};
use outside_files::words_before_names;
use packet_service::FileSink;
use run_model::Device;
use sector_medium::{Disk, FileDisk, RedoMedium};
use sources::{Input, NamedFiles, takes_names};
use std::fs::File;
use std::io::ErrorKind;
use std::process::ExitCode;
use std::{env, fs};
use tach_media::{Medium, Memory, StdSink};
use telling::{tell_copies, tell_elsewhere, tell_end, tell_run, tell_waiting};
use top::tacho;
use unit_model::layout::IMAGE_SIZE;
use words::Words;

/// The words behind the program's name. One that is no text is in no form.
fn given_words(rt: &HostRuntime) -> Result<Vec<String>, Fault> {
    let given = match env::args(rt) {
        Ok(given) => given,
        Err(error) => {
            return Err(match error.kind() {
                ErrorKind::OutOfMemory => Fault::Memory,
                _ => Fault::Usage,
            });
        }
    };
    let mut words = Vec::new(rt.alloc());
    for (i, word) in given.enumerate() {
        if i > 0 && words.push(word).is_err() {
            return Err(Fault::Memory);
        }
    }
    Ok(words)
}

/// The words of a list.
fn words_of(rt: &HostRuntime, list: &[String]) -> Result<Words, Memory> {
    let mut words = Words::new(rt.alloc());
    for word in list {
        words.push(word.as_str())?;
    }
    Ok(words)
}

/// The status where a device's file was taken away, and all else is done.
const TAKEN_AWAY: u8 = 15;

/// What the words ask for, and the files that they name.
#[derive(Drop)]
struct Asked {
    words: Words,
    names: Vec<String>,
}

/// What is asked for. The last words are names of files where those before them are a form that takes such.
fn read_words(rt: &HostRuntime) -> Result<Asked, Fault> {
    let given = given_words(rt)?;
    let (front, names) = given.split_at(words_before_names(given.as_slice()));
    let words = words_of(rt, front)?;
    if names.is_empty() || !takes_names(&words) {
        let words = words_of(rt, given.as_slice())?;
        let names = Vec::new(rt.alloc());
        return Ok(Asked { words, names });
    }
    let mut named = Vec::new(rt.alloc());
    for name in names {
        let name = String::from_str(rt.alloc(), name.as_str())?;
        if named.push(name).is_err() {
            return Err(Fault::Memory);
        }
    }
    Ok(Asked {
        words,
        names: named,
    })
}

/// What a form does with the files of the devices.
#[derive(Clone, Copy)]
enum Access {
    /// It writes them, and each write waits for the disk.
    Lasting,
    /// It makes a device anew, also one whose file is too short, and keeps a copy of what it held.
    Renewing,
    /// The same as a demonstration, which need not outlive a power cut.
    Passing,
    /// It reads them: also such as can't be written, and beside other forms that read.
    Reading,
    /// The same of those that are there: it makes none.
    Looking,
}

impl Access {
    /// Whether it writes them.
    fn writes(self) -> bool {
        match self {
            Access::Lasting | Access::Renewing | Access::Passing => true,
            Access::Reading | Access::Looking => false,
        }
    }
}

/// What the form of the words does with the file of a device. A demonstration makes no second card anew.
fn access_of(words: &Words, device: Device) -> Access {
    match form_of(words) {
        Some(Form::Demo { .. }) => match device {
            Device::CardB => Access::Lasting,
            _ => Access::Passing,
        },
        Some(Form::FormatCard { .. } | Form::FormatUnit { .. }) => Access::Renewing,
        Some(
            Form::Serve
            | Form::ServeHex
            | Form::ServePackets
            | Form::Download
            | Form::DownloadNoisy { .. }
            | Form::CardFile { .. },
        ) => Access::Reading,
        Some(Form::State) => Access::Looking,
        _ => Access::Lasting,
    }
}

/// The file of a device in the working folder, as a disk.
fn disk<'a>(
    rt: &'a HostRuntime,
    image: Image,
    size: u32,
    access: Access,
) -> FileDisk<'a, HostRuntime>
    requires { size + 528 < 2 ^ 32 }
    ensures untouched { IsUntouched (record_place size + 16) (⟦<FileDisk<'a, HostRuntime> as Disk>⟧.state result) }
    ensures room { HasRoom size (⟦<FileDisk<'a, HostRuntime> as Disk>⟧.state result) }
{
    match access {
        Access::Lasting => FileDisk::new(rt, image.path, size),
        Access::Renewing => FileDisk::renewing(rt, image.path, Some(image.copy), size),
        Access::Passing => FileDisk::without_waiting(rt, image.path, Some(image.copy), size),
        Access::Reading => FileDisk::for_reading(rt, image.path, size),
        Access::Looking => FileDisk::for_reading(rt, path_there(rt, image.path), size),
    }
}

/// A device in a file of the working folder: the file keeps sectors of 512 bytes whole, and the device each write of at
/// most four bytes.
fn file<'a>(
    rt: &'a HostRuntime,
    image: Image,
    size: u32,
    access: Access,
) -> RedoMedium<FileDisk<'a, HostRuntime>>
    requires { size + 528 < 2 ^ 32 }
    ensures { IsUntouched size (⟦<RedoMedium<FileDisk<'a, HostRuntime>> as Medium>⟧.state result) }
{
    RedoMedium::new(disk(rt, image, size, access), size)
}

/// The path of a file that is there and has bytes; of any other one that no file has, so that none is made.
fn path_there<'a>(rt: &HostRuntime, path: &'a str) -> &'a str {
    match fs::metadata(rt, path) {
        Ok(metadata) if metadata.len() > 0 => path,
        _ => NO_FILE,
    }
}

/// The top call over the input and the program's streams, and over the unit and the cards in the working folder's files;
/// and the lines of what was not as it should be. The status is that of the call, or 15 where that is 0 and the file of a
/// device that it writes was taken away meanwhile.
fn perform(rt: &HostRuntime, words: &Words, input: &mut Input<'_, HostRuntime>) -> u8 {
    let before = copies_of(rt);
    let mut unit = file(rt, UNIT, IMAGE_SIZE, access_of(words, Device::Unit));
    let mut card_a = SimCard::new(file(rt, CARD_A, LARGEST_IMAGE, access_of(words, Device::CardA)));
    let mut card_b = SimCard::new(file(rt, CARD_B, LARGEST_IMAGE, access_of(words, Device::CardB)));
    let ended = tacho(
        rt.alloc(),
        words,
        input,
        &mut StdSink::new(rt.stdout()),
        &mut FileSink::new(rt, download_name(rt)),
        &mut unit,
        &mut card_a,
        &mut card_b,
    );
    let _ = put_missing(
        &mut StdSink::new(rt.stderr()),
        unit.disk().missing(),
        card_a.medium().disk().missing(),
        card_b.medium().disk().missing(),
    );
    tell_run(rt, &ended);
    let writes = access_of(words, Device::CardB).writes();
    let unit_moved = writes && unit.disk().is_elsewhere();
    let card_a_moved = writes && card_a.medium().disk().is_elsewhere();
    let card_b_moved = writes && card_b.medium().disk().is_elsewhere();
    tell_elsewhere(rt, UNIT, unit_moved);
    tell_elsewhere(rt, CARD_A, card_a_moved);
    tell_elsewhere(rt, CARD_B, card_b_moved);
    tell_copies(rt, &before);
    tell_end(rt, words, ended.fault, Some(input.named()));
    program_status(ended.status, unit_moved || card_a_moved || card_b_moved)
}

/// The program's status, by that of the call, and by whether the file of a device was taken away.
fn program_status(status: u8, taken_away: bool) -> u8
    ensures { result ≡ program_status status taken_away }
{
    if status == 0 && taken_away {
        TAKEN_AWAY
    } else {
        status
    }
}

/// The end by a fault before the top call.
fn end_early(rt: &HostRuntime, words: &Words, fault: Fault) -> u8 {
    let ended = Ended::by_fault(rt.alloc(), fault);
    tell_end(rt, words, fault, None);
    ended.status
}

/// Does what is asked for, once there is a line of what it waits for.
fn answer(rt: &HostRuntime, asked: Asked) -> u8 {
    let Asked { words, names } = asked;
    if names.is_empty() {
        tell_waiting(rt, &words);
    }
    match NamedFiles::new(rt, rt.alloc(), names) {
        Ok(named) => perform(rt, &words, &mut Input::new(rt.stdin(), named)),
        Err(_) => end_early(rt, &words, Fault::Memory),
    }
}

/// Runs the program. A stream that is closed has left its number free: a folder takes it, which can be neither read nor
/// written, so that no other file gets it, over which then would be written what is printed.
fn run(rt: &HostRuntime) -> u8 {
    let _first = File::open(rt, "/");
    let _second = File::open(rt, "/");
    let _third = File::open(rt, "/");
    match read_words(rt) {
        Ok(asked) => answer(rt, asked),
        Err(fault) => end_early(rt, &Words::new(rt.alloc()), fault),
    }
}

/// Runs the program, and ends with its status.
fn main(rt: HostRuntime) -> ExitCode {
    ExitCode::from(run(&rt))
}
