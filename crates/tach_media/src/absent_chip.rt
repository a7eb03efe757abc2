//! A chip that is not there.
ghost use Rattle.std.specs.Prelude.{◌≡◌, false, [], ◌∷◌};
ghost use Rattle.tach_media.specs.Medium.{IsUntouched};

use crate::{Answer, Chip, Failed};

/// No chip: every call fails.
#[derive(Drop)]
pub struct AbsentChip {
    size: u32,
    faults: u64,
    breakdowns: u64,
}

impl AbsentChip {
    /// One whose memory has so many bytes, none of which is told.
    pub fn new(size: u32) -> AbsentChip
        ensures untouched { IsUntouched size (⟦<AbsentChip as Chip>⟧.state result) }
        ensures absent { (⟦<AbsentChip as Chip>⟧.state result).works ≡ false }
    {
        AbsentChip {
            size,
            faults: 0,
            breakdowns: 0,
        }
    }
}

impl Chip for AbsentChip {
    ghost use Rattle.tach_media.specs.Untold.{untold_state, untold};

    ghost state = { λ m. untold_state m.size ((0, m.size) ∷ []) 0 false m.faults m.breakdowns };

    ghost use Rattle.card_layout.specs.Outcomes.{just_issued};

    ghost card = { λ m. just_issued };

    ghost coherent = { λ m. untold m.size ((0, m.size) ∷ []) 0 false m.faults m.breakdowns };

    ghost ten = { λ m bytes is. Prim.cc };

    fn size(&self) -> u32 {
        self.size
    }

    fn clock(&self) -> u64 {
        0
    }

    fn transmit(&mut self, _command: &[u8], answer: &mut Answer) -> Result<(), Failed> {
        answer.clear();
        self.faults = self.faults.saturating_add(1);
        Err(Failed)
    }

    fn issue(&mut self, _image: &[u8]) -> Result<(), Failed> {
        self.faults = self.faults.saturating_add(1);
        Err(Failed)
    }

    fn revive(&mut self) -> Result<(), Failed> {
        self.faults = self.faults.saturating_add(1);
        self.breakdowns = self.breakdowns.saturating_add(1);
        Err(Failed)
    }

    fn holds_bytes(&self) {}
}
