//! An exact file is passed on as it is.
ghost use Rattle.std.specs.Prelude.{◌≡◌, ℕ, List, length};
ghost use Rattle.card_layout.specs.declared.files.Application.{Application};
ghost use Rattle.card_image.specs.CardFile.{FileEntry, IsCardFile};
ghost use Rattle.file_extract.specs.declared.card.CardPart.{CardPart as Part};
ghost use Rattle.message_model.specs.Messages.{Message, IsUnitFile};
ghost use Rattle.file_extract.specs.Part.{IsPassedOn};
ghost use Rattle.file_extract.specs.Judged.{IsNone};
ghost use Rattle.file_extract.specs.Units.{IsUnitPart};

/// Of a card file all is passed on, and nothing is left out.
pub fn a_card_file_is_passed_on_whole()
    ensures { (app : Application) (days vehicles : List ℕ) (entries : List FileEntry) (bytes : List ℕ) (part : Part) →
        IsCardFile app days vehicles entries bytes → IsPassedOn bytes part →
        (part.bytes.items ≡ bytes) × (part.second ≡ 0) × (part.end ≡ length bytes) }
{}

/// Of a unit file all is passed on.
pub fn a_unit_file_is_passed_on_whole()
    ensures { (messages : List Message) (bytes : List ℕ) (end : ℕ) → IsUnitFile messages bytes → IsUnitPart bytes end
        → end ≡ length bytes }
{}

/// No card file is refused.
pub fn a_card_file_is_not_refused()
    ensures { (app : Application) (days vehicles : List ℕ) (entries : List FileEntry) (bytes : List ℕ) (place : ℕ) →
        IsCardFile app days vehicles entries bytes → IsNone place bytes → ⊥ }
{}
