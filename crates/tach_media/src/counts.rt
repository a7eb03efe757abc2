//! What a device counts of its failures.
ghost use Rattle.std.specs.Prelude.{◌≡◌, ◌+◌, ◌≤◌, false, true};
ghost use Rattle.tach_media.specs.Medium.{Rose};

/// Whether a device works, how many of its calls have failed, and how many of those broke it.
#[derive(Clone, Copy, Debug, PartialEq, Eq)]
pub struct Counts {
    pub works: bool,
    pub faults: u64,
    pub breakdowns: u64,
}

impl Counts {
    ghost use Rattle.tach_media.specs.Counting.{failed_once};

    /// Of a new device, which works.
    pub fn new() -> Counts
        ensures { result ≡ record { works = true; faults = 0; breakdowns = 0 } }
    {
        Counts {
            works: true,
            faults: 0,
            breakdowns: 0,
        }
    }

    /// A call has failed.
    pub fn fail(&mut self)
        ensures counted { self.new ≡ failed_once self.old }
        ensures works { self.new.works ≡ false }
        ensures later { self.old.faults ≤ self.new.faults }
        ensures fault { Rose self.old.faults self.new.faults }
        ensures later_breakdowns { self.old.breakdowns ≤ self.new.breakdowns }
        ensures breaks { self.old.works ≡ true → Rose self.old.breakdowns self.new.breakdowns }
        ensures already { self.old.works ≡ false → self.new.breakdowns ≡ self.old.breakdowns }
        ensures once { self.new.breakdowns ≤ self.old.breakdowns + 1 }
    {
        self.faults = self.faults.saturating_add(1);
        // for the proof alone: what was read is below 2 ^ 64
        let _breakdowns = self.breakdowns;
        if self.works {
            self.breakdowns = self.breakdowns.saturating_add(1);
        }
        self.works = false;
    }
}
