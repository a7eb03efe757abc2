//! A file that is in its grammar fails at no place.
ghost use Rattle.std.specs.Prelude.{ℕ, List};
ghost use Rattle.card_layout.specs.declared.files.Application.{Application};
ghost use Rattle.card_image.specs.CardFile.{FileEntry, IsCardFile};
ghost use Rattle.message_model.specs.Messages.{Message, IsUnitFile};
ghost use Rattle.file_view.specs.CardFiles.{IsBadCardFile};
ghost use Rattle.file_view.specs.UnitFiles.{IsBadUnitFile};

/// A card file fails at no place.
pub fn a_card_file_does_not_fail()
    ensures { (app : Application) (days vehicles : List ℕ) (entries : List FileEntry) (bytes : List ℕ) (place : ℕ) →
        IsCardFile app days vehicles entries bytes → IsBadCardFile place bytes → ⊥ }
{}

/// A unit file fails at no place.
pub fn a_unit_file_does_not_fail()
    ensures { (messages : List Message) (bytes : List ℕ) (place : ℕ) → IsUnitFile messages bytes
        → IsBadUnitFile place bytes → ⊥ }
{}
