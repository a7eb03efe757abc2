//! A card behind its commands.
ghost use Rattle.std.specs.Prelude.{◌≡◌, ◌≤◌, ◌<◌, ◌+◌, ◌/◌, [], length, option_map, OnOk, OnErr, is_err};
ghost use Rattle.std.specs.Option.{ForSome};
ghost use Rattle.card_layout.specs.declared.command.CardState.{CardState};
ghost use Rattle.tach_media.specs.Medium.{State, IsCoherent, HoldsBytes, LeavesOnly, IsSettled, HasCause, Unchanged};
ghost use Rattle.tach_media.specs.Medium.{Rose, put, last_count, revivable};
ghost use Rattle.card_layout.specs.Outcomes.{outcome_of, IsAnswered, just_issued, after_reset};
ghost use Rattle.card_layout.specs.Issue.{IsIssued};
ghost use Rattle.tach_media.specs.Chip.{Does};

use crate::Failed;
use arrayvec::ArrayVec;

/// What a card answers to a command: the data and two status bytes.
pub type Answer = ArrayVec<u8, 258>;

/// A card, reached by its commands (Appendix 2, section 3). What it tells of its flat image is told as by a medium; by
/// which state it answers it always tells.
pub trait Chip {
    ghost state: { Self → State };

    ghost card: { Self → CardState };

    /// The size of the flat image in bytes.
    fn size(&self) -> u32
        ensures { result ≡ (state self.now).size };

    /// How many writes were begun.
    fn clock(&self) -> u64
        ensures { result ≡ (state self.now).clock };

    /// Sends a command and takes its answer, data and status word.
    fn transmit(&mut self, command: &[u8], answer: &mut Answer) -> Result<(), Failed>
        ensures answered { OnOk result (IsAnswered command.now (state self.old).image (card self.old) (card self.new)
            answer.new.items) }
        ensures image { Does (outcome_of (card self.old) command.now).effect (state self.old) (state self.new)
            (is_err result) }
        ensures kept { OnErr result (card self.new ≡ card self.old) }
        ensures no_answer { OnErr result (answer.new.items ≡ []) };

    /// Issues the card anew, as its maker does: the image's bytes, at least 34 and at most the chip's size, replace the
    /// first bytes of the flat image.
    fn issue(&mut self, image: &[u8]) -> Result<(), Failed>
        requires least { 34 ≤ length image.now }
        requires most { length image.now ≤ (state self.old).size }
        ensures written { OnOk result ((state self.new).image ≡ option_map (put 0 image.now) (state self.old).image) }
        ensures moments { LeavesOnly (state self.old) (state self.new) (IsIssued image.now) }
        ensures settled { OnOk result ((state self.new).clock < last_count → IsSettled (state self.new)) }
        ensures clock { OnOk result (Rose (state self.old).clock (state self.new).clock) }
        ensures state { card self.new ≡ just_issued }
        ensures few { (state self.new).clock ≤ (state self.old).clock + (4 + length image.now / 255) }
        ensures cause { HasCause (state self.old) (state self.new) (is_err result) };

    /// Makes a chip work again after a failure, with one of the images that a stop may leave, and resets it. The image
    /// of a chip that works stays.
    fn revive(&mut self) -> Result<(), Failed>
        ensures moments { LeavesOnly (state self.old) (state self.new) Unchanged }
        ensures clock { (state self.new).clock ≡ (state self.old).clock }
        ensures state { card self.new ≡ after_reset (card self.old) }
        ensures cause { HasCause (revivable (state self.old)) (state self.new) (is_err result) };

    /// Each image that it tells, and each that a stop may leave or might have left, is of bytes. It does nothing.
    fn holds_bytes(&self)
        ensures { HoldsBytes (state self.now) };

    ghost coherent: { (c : Self) → IsCoherent (state c) };

    // Application_Identification has ten bytes.
    ghost ten: { (c : Self) → ForSome (card c).application (λ bytes. length bytes ≡ 10) };
}

impl<C: Chip> Chip for &mut C {
    ghost use Rattle.tach_media.specs.Medium.{lent, lent_coherent};

    ghost state = { λ c. lent c.ghost_name (C.state c.now) };

    ghost card = { λ c. C.card c.now };

    ghost coherent = { λ c. lent_coherent c.ghost_name (C.state c.now) (C.coherent c.now) };

    ghost ten = { λ c. C.ten c.now };

    fn size(&self) -> u32 {
        (**self).size()
    }

    fn clock(&self) -> u64 {
        (**self).clock()
    }

    fn transmit(&mut self, command: &[u8], answer: &mut Answer) -> Result<(), Failed> {
        (**self).transmit(command, answer)
    }

    fn issue(&mut self, image: &[u8]) -> Result<(), Failed> {
        (**self).issue(image)
    }

    fn revive(&mut self) -> Result<(), Failed> {
        (**self).revive()
    }

    fn holds_bytes(&self) {
        (**self).holds_bytes();
    }
}
