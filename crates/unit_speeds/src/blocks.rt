//! The blocks of detailed speed of a unit file.
ghost use Rattle.std.specs.Prelude.{◌≡◌, ◌+◌, ◌*◌, ◌≤◌, ◌++◌, ◌∷◌, [], List, length, map, IfOk, OnOk};
ghost use Rattle.card_layout.specs.Images.{number_at};
ghost use Rattle.message_model.specs.Messages.{Message as FileMessage, SpeedMessage, ASpeedList};
ghost use Rattle.unit_messages.specs.Reading.{BeginsWith};
ghost use Rattle.file_view.specs.Places.{ArePlaced, IsPlaced};
ghost use Rattle.unit_speeds.specs.Speeds.{line_of, speeds_told};

use crate::line::{SpeedLine, line_of};
use byteorder::{BigEndian, ByteOrder};
use file_view::{MessageAt, part};
use message_model::sizes::SPEED_BLOCK;
use std::alloc::{AllocError, Global};
use unit_messages::Request;

/// Where the message of detailed speed has its blocks, behind 76, its number and their count.
const BLOCKS: usize = 4;

/// What messages tell of speeds, block by block.
pub(crate) fn lines_in(
    alloc: Global,
    b: &[u8],
    all: &[MessageAt],
) -> Result<Vec<SpeedLine>, AllocError>
    requires { (messages : List FileMessage) × ArePlaced b.now all.now messages }
    ensures { (messages : List FileMessage) → ArePlaced b.now all.now messages
        → IfOk result (λ lines. lines.items ≡ speeds_told messages) }
{
    let mut lines = Vec::new(alloc);
    for at in all {
        add_message(&mut lines, b, *at)?;
    }
    Ok(lines)
}

/// Adds what a message tells of speeds.
fn add_message(lines: &mut Vec<SpeedLine>, b: &[u8], at: MessageAt) -> Result<(), AllocError>
    requires { (m : FileMessage) × IsPlaced b.now at m }
    ensures { (m : FileMessage) → IsPlaced b.now at m
        → OnOk result (lines.new.items ≡ lines.old.items ++ speeds_told (m ∷ [])) }
{
    match at.request {
        Request::Speed => {
            add_blocks(lines, &b[at.place..])?;
            Ok(())
        }
        _ => Ok(()),
    }
}

/// Adds what is told of the blocks of the message at the front.
fn add_blocks(lines: &mut Vec<SpeedLine>, message: &[u8]) -> Result<(), AllocError>
    requires { (m : SpeedMessage) × BeginsWith (ASpeedList m) message.now }
    ensures { (m : SpeedMessage) → BeginsWith (ASpeedList m) message.now
        → OnOk result (lines.new.items ≡ lines.old.items ++ map line_of m.blocks) }
{
    let count = count_in(message) as usize;
    for i in 0..count {
        let from = BLOCKS + SPEED_BLOCK as usize * i;
        let block = part(message, from, SPEED_BLOCK as usize);
        add_block(lines, block)?;
    }
    Ok(())
}

/// How many blocks the message at the front has.
fn count_in(message: &[u8]) -> u16
    requires { 4 ≤ length message.now }
    ensures { result ≡ number_at message.now 2 2 }
{
    BigEndian::read_u16(&message[2..BLOCKS])
}

/// Adds what is told of a block.
fn add_block(lines: &mut Vec<SpeedLine>, block: &[u8]) -> Result<(), AllocError>
    requires { length block.now ≡ 64 }
    ensures { OnOk result (lines.new.items ≡ lines.old.items ++ line_of block.now ∷ []) }
{
    lines.push(line_of(block))?;
    Ok(())
}
