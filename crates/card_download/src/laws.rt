//! Laws of a card file.
ghost use Rattle.std.specs.Prelude.{◌≡◌, ℕ, List, Option, None};
ghost use Rattle.activity_codec.specs.declared.entries.Entry.{Entry};
ghost use Rattle.card_layout.specs.declared.files.Application.{Application};
ghost use Rattle.card_image.specs.CardFile.{FileEntry, IsCardFile, entries_of};
ghost use Rattle.card_image.specs.Fields.{file_bytes};
ghost use Rattle.card_image.specs.Own.{own_sizes};
ghost use Rattle.file_view.specs.Showing.{ShowsCardFile};
ghost use Rattle.card_download.specs.Written.{file_of, bad_field};
ghost use Rattle.card_download.specs.Readable.{HasAllFiles, IsReadable, image_entries};

/// The card file of a card whose string of days and vehicles' pointer decode is in the grammar of card files: its
/// entries are the card's files. No other card's is.
pub fn a_card_file_is_in_the_grammar()
    ensures grammar { (x : List ℕ) → HasAllFiles x → IsReadable x →
        IsCardFile (own_sizes x) (file_bytes (own_sizes x) 0x0504 x) (file_bytes (own_sizes x) 0x0505 x)
        (entries_of (own_sizes x) x) (file_of x) }
    ensures exactly { (x : List ℕ) (app : Application) (days vehicles : List ℕ) (entries : List FileEntry)
        → bad_field x ≡ None →
        IsCardFile app days vehicles entries (file_of x) → IsReadable x }
{}

/// What a view shows of the card file of a card is what the card's image shows, of all days or of the newest so many.
pub fn a_view_shows_the_card()
    ensures { (last : Option ℕ) (x : List ℕ) (shown : List Entry) → bad_field x ≡ None
        → ShowsCardFile last (file_of x) shown →
        shown ≡ image_entries last x }
{}
