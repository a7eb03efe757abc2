//! What a number draws.
ghost use Rattle.std.specs.Prelude.{◌≡◌};
ghost use Rattle.noisy_download.specs.Rounds.{event_drawn, before_last};

use noisy_model::Event;

/// The event that a number draws: the loader's end sends; or one of the last three packets or answers comes, if there
/// are so many.
pub fn drawn_event(x: u32, sent: u32, answered: u32) -> Option<Event>
    ensures { result ≡ event_drawn x sent answered }
{
    let late = x / 256 % 3;
    match x / 65536 % 3 {
        0 => Some(Event::Send),
        1 => match place_before_last(sent, late) {
            Some(place) => Some(Event::ToUnit(place)),
            None => None,
        },
        _ => match place_before_last(answered, late) {
            Some(place) => Some(Event::ToLoader(place)),
            None => None,
        },
    }
}

/// The place of the last of so many but for the late ones, if there are so many.
pub fn place_before_last(count: u32, late: u32) -> Option<u32>
    ensures { result ≡ before_last count late }
{
    if count <= late {
        return None;
    }
    Some(count - 1 - late)
}
