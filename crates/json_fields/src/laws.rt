//! What is proved of the texts of records and lists: they are JSON, and nothing of their bytes is left out.
ghost use Rattle.std.specs.Prelude.{◌≡◌, ◌*◌, ◌++◌, ◌<◌, ◌≤◌, ℕ, List, Some, length};
ghost use Rattle.card_layout.specs.Fields.{IsBytes};
ghost use Rattle.json.specs.Json.{document};
ghost use Rattle.json.specs.Token.{Token};
ghost use Rattle.json.specs.Print.{print, print_from, ends_value};
ghost use Rattle.json.specs.Tree.{json_tokens};
ghost use Rattle.json_fields.specs.declared.fields.Field.{Field};
ghost use Rattle.calendar_days.specs.Calendar.{IsDateText};
ghost use Rattle.json_fields.specs.Dates.{date_of, date_text};
ghost use Rattle.json_fields.specs.Shown.{record_shown, records_shown, width_of_record, AreFields};

/// The text of a record is a JSON value, by RFC 8259's grammar, and that value is the record's.
pub fn a_record_is_json()
    ensures { (fields : List Field) (bytes : List ℕ) → AreFields fields → width_of_record fields ≤ length bytes
        → IsBytes bytes →
        document (print (json_tokens (record_shown fields bytes))) ≡ Some (record_shown fields bytes) }
{}

/// Nothing of a record is left out: two records of one text have the same bytes.
pub fn nothing_is_left_out()
    ensures { (fields : List Field) (xs ys : List ℕ) → AreFields fields → length xs ≡ width_of_record fields
        → length ys ≡ width_of_record fields →
        IsBytes xs → IsBytes ys → print (json_tokens (record_shown fields xs))
        ≡ print (json_tokens (record_shown fields ys)) → xs ≡ ys }
{}

/// The text of a list of records is a JSON value, and that value is the list's.
pub fn a_list_is_json()
    ensures { (n : ℕ) (fields : List Field) (bytes : List ℕ) → AreFields fields
        → n * width_of_record fields ≤ length bytes → IsBytes bytes →
        document (print (json_tokens (records_shown n fields bytes))) ≡ Some (records_shown n fields bytes) }
{}

/// Nothing of a list is left out: two lists of one text have as many records, of the same bytes.
pub fn nothing_of_a_list_is_left_out()
    ensures { (n m : ℕ) (fields : List Field) (xs ys : List ℕ) → AreFields fields
        → length xs ≡ n * width_of_record fields → length ys ≡ m * width_of_record fields →
        IsBytes xs → IsBytes ys → print (json_tokens (records_shown n fields xs))
        ≡ print (json_tokens (records_shown m fields ys)) → (n ≡ m) × (xs ≡ ys) }
{}

/// A text may be printed piece by piece: what stands in front tells only whether a value has just ended.
pub fn a_text_is_printed_in_pieces()
    ensures { (front behind : List Token)
        → print (front ++ behind) ≡ print front ++ print_from (ends_value front) behind }
{}

/// A time is shown with the date of its day by the kit's calendar.
pub fn a_time_has_the_date_of_its_day()
    ensures { (day : ℕ) → day < 65536 → IsDateText day (date_text (date_of day)) }
{}
