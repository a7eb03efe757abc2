//! The part of a unit's download that is of the first generation.
ghost use Rattle.std.specs.Prelude.{◌≡◌, ◌≤◌, ◌<◌, ◌^◌, List, length, drop, IfSome, IfNone};
ghost use Rattle.message_model.specs.Messages.{Message as FileMessage};
ghost use Rattle.file_view.specs.UnitFiles.{HasNoMessage};
ghost use Rattle.file_extract.specs.Units.{IsUnitFront, IsUnitPart};

use unit_messages::read_message;

/// Where the messages at the front of a unit's download end, which are a unit file; `None` exactly where it begins with
/// none.
pub fn unit_part(b: &[u8]) -> Option<usize>
    requires { length b.now < 2 ^ 32 }
    ensures part { IfSome result (IsUnitPart b.now) }
    ensures none { IfNone result (HasNoMessage b.now) }
{
    let end = messages_end(b);
    if end == 0 { None } else { Some(end) }
}

/// Where the messages at the front of the bytes end.
fn messages_end(b: &[u8]) -> usize
    requires { length b.now < 2 ^ 32 }
    ensures { (messages : List FileMessage) × IsUnitFront b.now result messages }
{
    let mut place = 0;
    while place < b.len() {
        let Ok(read) = read_message(&b[place..]) else {
            return place;
        };
        place += read.len as usize;
    }
    place
}
