//! A medium that is not there.
ghost use Rattle.std.specs.Prelude.{◌≡◌, false};
ghost use Rattle.tach_media.specs.Medium.{IsUntouched};

use crate::{Failed, Medium};

/// No medium: every call fails.
#[derive(Drop)]
pub struct AbsentMedium {
    size: u32,
    faults: u64,
    breakdowns: u64,
}

impl AbsentMedium {
    /// One of so many bytes, none of which is told.
    pub fn new(size: u32) -> AbsentMedium
        ensures untouched { IsUntouched size (⟦<AbsentMedium as Medium>⟧.state result) }
        ensures absent { (⟦<AbsentMedium as Medium>⟧.state result).works ≡ false }
    {
        AbsentMedium {
            size,
            faults: 0,
            breakdowns: 0,
        }
    }
}

impl Medium for AbsentMedium {
    ghost use Rattle.std.specs.Prelude.{[], ◌∷◌};
    ghost use Rattle.tach_media.specs.Untold.{untold_state, untold};

    ghost state = { λ m. untold_state m.size ((0, m.size) ∷ []) 0 false m.faults m.breakdowns };

    ghost coherent = { λ m. untold m.size ((0, m.size) ∷ []) 0 false m.faults m.breakdowns };

    fn size(&self) -> u32 {
        self.size
    }

    fn clock(&self) -> u64 {
        0
    }

    fn read_at(&mut self, _place: u32, _out: &mut [u8]) -> Result<(), Failed> {
        self.faults = self.faults.saturating_add(1);
        Err(Failed)
    }

    fn write_at(&mut self, _place: u32, _bytes: &[u8]) -> Result<(), Failed> {
        self.faults = self.faults.saturating_add(1);
        Err(Failed)
    }

    fn revive(&mut self) -> Result<(), Failed> {
        self.faults = self.faults.saturating_add(1);
        self.breakdowns = self.breakdowns.saturating_add(1);
        Err(Failed)
    }

    fn holds_bytes(&self) {}
}
