//! What stands for a card where a trace has no line of one.
ghost use Rattle.std.specs.Prelude.{◌≡◌, false, is_err};
ghost use Rattle.tacho.specs.Blank.{blank_state};

use card_commands::SimCard;
use card_layout::LARGEST_IMAGE;
use tach_media::{Failed, Medium};

/// A memory of zeros of the largest card's size. It takes no file and no memory. No write is kept: the first one breaks
/// it for good.
#[derive(Drop)]
pub struct Blank {
    broken: bool,
}

impl Blank {
    // The answer of a call that writes nothing.
    fn answer(&self) -> Result<(), Failed>
        ensures { is_err result ≡ self.now.broken }
    {
        if self.broken {
            return Err(Failed);
        }
        Ok(())
    }
}

impl Medium for Blank {
    ghost use Rattle.tacho.specs.Blank.{blank_coherent};

    ghost state = { λ m. blank_state m.broken };

    ghost coherent = { λ m. blank_coherent m.broken };

    fn size(&self) -> u32 {
        LARGEST_IMAGE
    }

    fn clock(&self) -> u64 {
        if self.broken { 1 } else { 0 }
    }

    fn read_at(&mut self, _place: u32, out: &mut [u8]) -> Result<(), Failed> {
        out.fill(0);
        self.answer()
    }

    fn write_at(&mut self, _place: u32, _bytes: &[u8]) -> Result<(), Failed> {
        self.broken = true;
        Err(Failed)
    }

    fn revive(&mut self) -> Result<(), Failed> {
        self.answer()
    }

    fn holds_bytes(&self) {}
}

/// No card: it tells an image of zeros, and no call has failed on it.
pub fn no_card() -> SimCard<Blank>
    ensures { result.medium.broken ≡ false }
{
    SimCard::new(Blank { broken: false })
}
