//! What is asked for, and its number.
ghost use Rattle.std.specs.Prelude.{◌≡◌};
ghost use Rattle.link_model.specs.Answers.{number_of};

use crate::services::{DAY_NUMBER, EVENTS_NUMBER, OVERVIEW_NUMBER, SPEED_NUMBER, TECHNICAL_NUMBER};

/// What a downloader asks of a unit (Annex IB, Appendix 7, 2.2.6).
#[derive(Clone, Copy, Debug, PartialEq, Eq)]
pub enum Request {
    /// The overview: the unit, its vehicle, and the period that can be downloaded.
    Overview,
    /// The activities of the day that begins at this second, counted from 1970-01-01 00:00 UTC.
    Day(u32),
    /// Events and faults.
    Events,
    /// Detailed speed.
    Speed,
    /// Technical data.
    Technical,
}

/// The number of a request's message (Annex IB, Appendix 7, 2.2.6).
pub fn number_of(request: Request) -> u8
    ensures { result ≡ number_of request }
{
    match request {
        Request::Overview => OVERVIEW_NUMBER,
        Request::Day(_) => DAY_NUMBER,
        Request::Events => EVENTS_NUMBER,
        Request::Speed => SPEED_NUMBER,
        Request::Technical => TECHNICAL_NUMBER,
    }
}
