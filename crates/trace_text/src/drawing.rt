//! What is drawn: one number behind another, and what a number picks.
ghost use Rattle.std.specs.Prelude.{◌≡◌, ◌+◌, ◌*◌, ◌%◌, ◌^◌};
ghost use Rattle.trace_text.specs.Demo.{next_drawn, pick_numbered};

use activity_codec::Pick;

/// The number that is drawn behind another.
pub fn next_drawn(x: u32) -> u32
    ensures { result ≡ next_drawn x }
{
    ((u64::from(x) * 1103515245 + 12345) % 2147483648) as u32
}

/// Rest, available or work.
pub(crate) fn pick_numbered(n: u32) -> Pick
    ensures { result ≡ pick_numbered n }
{
    match n {
        0 => Pick::Rest,
        1 => Pick::Available,
        _ => Pick::Work,
    }
}
