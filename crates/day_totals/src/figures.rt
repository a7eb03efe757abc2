//! What is counted of the minutes of a day.
ghost use Rattle.std.specs.Prelude.{◌≡◌, ◌≤◌, ◌==◌, IfOk, length};
ghost use Rattle.std.specs.List.Sorted.{IsNonDecreasingBy};
ghost use Rattle.file_view.specs.Histories.{minutes_on};
ghost use Rattle.day_totals.specs.Figures.{counts, is_with_card, figure_name, total, line_total};
ghost use Rattle.day_totals.specs.Figures.{day_told, distance_on, AreSameDistances};

use activity_codec::Activity;
use slot_bars::Seen;
use std::alloc::{AllocError, Global};
use view_model::{Distance, Line};

/// What is counted: an activity with a card in the slot, minutes that were not recorded, or minutes with a card in the
/// slot.
#[derive(Clone, Copy, Debug, PartialEq, Eq)]
pub enum Figure {
    /// Driving, with a card in the slot.
    Drive,
    /// Work, with a card in the slot.
    Work,
    /// Availability, with a card in the slot.
    Available,
    /// Rest, with a card in the slot.
    Rest,
    /// What was not recorded.
    Unknown,
    /// A card in the slot.
    In,
}

impl Figure {
    /// Its name in text.
    pub fn name(self) -> &'static [u8]
        ensures { result.now ≡ figure_name self }
    {
        match self {
            Figure::Drive => b"drive",
            Figure::Work => b"work",
            Figure::Available => b"available",
            Figure::Rest => b"rest",
            Figure::Unknown => b"unknown",
            Figure::In => b"in",
        }
    }

    /// Whether a minute counts.
    fn counts(self, seen: Seen) -> bool
        ensures { result ≡ counts self seen }
    {
        match self {
            Figure::Drive => is_with_card(seen, Activity::Driving),
            Figure::Work => is_with_card(seen, Activity::Work),
            Figure::Available => is_with_card(seen, Activity::Available),
            Figure::Rest => is_with_card(seen, Activity::Rest),
            Figure::Unknown => !seen.known,
            Figure::In => seen.present,
        }
    }
}

/// Whether a minute has this activity, with a card in the slot.
fn is_with_card(seen: Seen, act: Activity) -> bool
    ensures { result ≡ is_with_card act seen }
{
    seen.present && seen.act == act
}

/// How many minutes of bars count.
pub fn minutes_in(bars: &[Line<Seen>], figure: Figure) -> u32
    requires { length (minutes_on bars.now) ≤ 1440 }
    ensures total { result ≡ total figure (minutes_on bars.now) }
    ensures few { result ≤ 1440 }
{
    let mut sum = 0u64;
    for bar in bars {
        sum += line_total(figure, *bar);
    }
    sum as u32
}

/// How many minutes of a bar count.
fn line_total(figure: Figure, bar: Line<Seen>) -> u64
    ensures { result ≡ line_total figure bar }
{
    if !figure.counts(bar.shown) {
        return 0;
    }
    (bar.last as u64 + 1).saturating_sub(bar.first as u64)
}

/// Distances by their days, those of a day in their order.
///
/// # Errors
///
/// `AllocError` where memory runs out.
pub(crate) fn by_day(alloc: Global, distances: &[Distance]) -> Result<Vec<Distance>, AllocError>
    ensures order { IfOk result (λ ordered. IsNonDecreasingBy day_told ordered.items) }
    ensures same { IfOk result (λ ordered. AreSameDistances ordered.items distances.now) }
{
    let mut ordered = Vec::from_slice(alloc, distances)?;
    ordered.sort_by_key(|distance| distance.day)?;
    Ok(ordered)
}

/// The distance of a day, where one is told, among distances by their days.
pub(crate) fn distance_on(distances: &[Distance], day: u32) -> Option<u32>
    requires { IsNonDecreasingBy day_told distances.now }
    ensures { result ≡ distance_on distances.now day }
{
    let place = distances.partition_point(|distance| distance.day < day);
    if place == distances.len() {
        return None;
    }
    let told = distances[place];
    if told.day == day { Some(told.km) } else { None }
}
