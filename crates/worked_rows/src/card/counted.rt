ghost use Rattle.std.specs.Prelude.{◌≡◌};

use tach_media::{Answer, Chip, Failed};

/// A card that counts the commands that it is sent.
#[derive(Drop)]
pub struct Counted<C: Chip> {
    chip: C,
    commands: u64,
}

impl<C: Chip> Counted<C> {
    /// No command yet.
    pub fn new(chip: C) -> Counted<C>
        ensures { result.chip ≡ chip }
    {
        Counted { chip, commands: 0 }
    }

    /// How many commands it was sent.
    pub fn commands(&self) -> u64 {
        self.commands
    }
}

impl<C: Chip> Chip for Counted<C> {
    ghost state = { λ c. C.state c.chip };

    ghost card = { λ c. C.card c.chip };

    ghost coherent = { λ c. C.coherent c.chip };

    ghost ten = { λ c. C.ten c.chip };

    fn size(&self) -> u32 {
        self.chip.size()
    }

    fn clock(&self) -> u64 {
        self.chip.clock()
    }

    fn transmit(&mut self, command: &[u8], answer: &mut Answer) -> Result<(), Failed> {
        self.commands = self.commands.saturating_add(1);
        self.chip.transmit(command, answer)
    }

    fn issue(&mut self, image: &[u8]) -> Result<(), Failed> {
        self.chip.issue(image)
    }

    fn revive(&mut self) -> Result<(), Failed> {
        self.chip.revive()
    }

    fn holds_bytes(&self) {
        self.chip.holds_bytes();
    }
}
