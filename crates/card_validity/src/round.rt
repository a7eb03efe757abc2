//! Places of the string, round its end.
ghost use Rattle.std.specs.Prelude.{◌≡◌, ◌+◌, ◌<◌, ◌≤◌, ◌^◌};
ghost use Rattle.card_image.specs.card_model.Checks.{file_place};

/// The string of days: how long it is, and where its oldest day begins.
#[derive(Clone, Copy)]
pub struct Round {
    pub size: u32,
    pub oldest: u32,
}

impl Round {
    /// The place in the file of days that lies so far behind the oldest day.
    pub fn file_place(&self, distance: u32) -> u32
        requires near { distance < 2 ^ 24 }
        requires oldest { self.now.oldest < 2 ^ 24 }
        ensures { result ≡ file_place self.now.size self.now.oldest distance }
    {
        let place = self.oldest + distance;
        if place < self.size {
            4 + place
        } else {
            4 + (place - self.size)
        }
    }
}
