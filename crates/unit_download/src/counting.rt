//! How many messages of a unit file are of a day.
ghost use Rattle.std.specs.Prelude.{◌≡◌, List};
ghost use Rattle.message_model.specs.Messages.{Message, IsUnitFile};
ghost use Rattle.unit_download.specs.Measures.{days_in, day_count};

use link_model::Request;
use unit_messages::read_message;

/// How many messages of a day a unit file has; of other bytes, those at their front.
pub fn day_count(b: &[u8]) -> usize
    ensures { (messages : List Message) → IsUnitFile messages b.now → result ≡ day_count messages }
{
    let mut place = 0;
    let mut days = 0;
    while place < b.len() {
        let Ok(read) = read_message(&b[place..]) else {
            return days;
        };
        days += days_in(read.request);
        place += read.len as usize;
    }
    days
}

/// How many of one message: 1 of what answers the request for a day.
fn days_in(request: Request) -> usize
    ensures { result ≡ days_in request }
{
    match request {
        Request::Day(_) => 1,
        Request::Overview => 0,
        Request::Events => 0,
        Request::Speed => 0,
        Request::Technical => 0,
    }
}
