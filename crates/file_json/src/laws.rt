//! What is proved of a file's JSON: that it is the file's, and that each field is told under its name and in its form.
ghost use Rattle.std.specs.Prelude.{◌≡◌, ◌+◌, ◌<◌, ◌≤◌, ◌^◌, ℕ, Option, Some, None, List, [], ◌∷◌, codes, drop, length};
ghost use Rattle.byteorder.specs.Endian.{big_number};
ghost use Rattle.card_files.specs.Events.{event_widths as card_event_widths};
ghost use Rattle.card_files.specs.Vehicles.{vehicle_widths};
ghost use Rattle.card_image.specs.CardFile.{FileEntry, string_alone};
ghost use Rattle.card_image.specs.Fields.{file};
ghost use Rattle.card_layout.specs.declared.files.Application.{Application};
ghost use Rattle.card_layout.specs.Fields.{IsBytes};
ghost use Rattle.card_layout.specs.Files.{size_of};
ghost use Rattle.card_model.specs.Days.{Day};
ghost use Rattle.card_model.specs.Image.{HoldsDays, IsStringShape};
ghost use Rattle.file_view.specs.CardFiles.{newest};
ghost use Rattle.file_view.specs.UnitFiles.{days_told};
ghost use Rattle.json.specs.Json.{array, document, member, no_members, object};
ghost use Rattle.json.specs.Print.{print};
ghost use Rattle.json.specs.Tree.{json_tokens};
ghost use Rattle.json_fields.specs.declared.fields.Form.TheVariants.{Time, Number, Card};
ghost use Rattle.json_fields.specs.declared.fields.Group.TheVariants.{Place, PreviousVehicle};
ghost use Rattle.json_fields.specs.declared.kinds.Kind.TheVariants as kind;
ghost use Rattle.json_fields.specs.Groups.{group_fields};
ghost use Rattle.json_fields.specs.Kinds.{fields_of};
ghost use Rattle.message_model.specs.Messages.{Message as FileMessage, IsUnitFile};
ghost use Rattle.message_model.specs.Records.{insertion_widths};
ghost use Rattle.note_model.specs.Tables.{event_widths, fault_widths, over_widths};
ghost use Rattle.tacho_types.specs.Places.{place_widths};
ghost use Rattle.file_view.specs.Files.{AreFiles};
ghost use Rattle.file_json.specs.declared.card.Shape.TheVariants.{Events, Faults};
ghost use Rattle.file_json.specs.Cards.{IsCardJson, json_of_card, lists_of, told};
ghost use Rattle.file_json.specs.Days.{ShowDays, items_count, newest_items, records_of, string_shown};
ghost use Rattle.file_json.specs.Units.{IsUnitJson, json_of_unit, messages_in, of_last_days, of_no_day};
ghost use Rattle.file_json.specs.Written.{StandFrom, HaveForm, card_names, insertion_names, fault_names, event_names};
ghost use Rattle.file_json.specs.Written.{over_names};
ghost use Rattle.file_json.specs.Written.{place_names, card_event_names, vehicle_names};

/// The text of a unit file is a JSON value, by RFC 8259's grammar, and that value is the file's.
pub fn a_unit_file_is_json()
    ensures { (last : Option ℕ) (messages : List FileMessage) (bytes : List ℕ) → length bytes < 2 ^ 32 → IsBytes bytes
        → IsUnitFile messages bytes →
        document (print (json_tokens (json_of_unit last messages))) ≡ Some (json_of_unit last messages) }
{}

/// Nothing of a unit file is left out: two unit files of one text are one file.
pub fn nothing_of_a_unit_file_is_left_out()
    ensures { (xs ys out : List ℕ) → length xs < 2 ^ 32 → length ys < 2 ^ 32 → IsBytes xs → IsBytes ys
        → IsUnitJson None xs out → IsUnitJson None ys out → xs ≡ ys }
{}

/// The text of a card file is a JSON value, and that value is the file's.
pub fn a_card_file_is_json()
    ensures { (last : Option ℕ) (entries : List FileEntry) (bytes : List ℕ) → length bytes < 2 ^ 32 → IsBytes bytes
        → AreFiles entries bytes →
        document (print (json_tokens (json_of_card last entries))) ≡ Some (json_of_card last entries) }
{}

/// Nothing of a card file is left out: two card files of one text are one file.
pub fn nothing_of_a_card_file_is_left_out()
    ensures { (xs ys out : List ℕ) → length xs < 2 ^ 32 → length ys < 2 ^ 32 → IsBytes xs → IsBytes ys
        → IsCardJson None xs out → IsCardJson None ys out → xs ≡ ys }
{}

/// The text of a unit file is that of no card file.
pub fn a_unit_file_is_told_from_a_card_file()
    ensures { (last other : Option ℕ) (xs ys out : List ℕ) → length xs < 2 ^ 32 → length ys < 2 ^ 32 → IsBytes xs
        → IsBytes ys → IsUnitJson last xs out → IsCardJson other ys out → ⊥ }
{}

/// Of the last so many days of a unit file, where it has no more, all is told; else the messages of exactly the days of
/// which `view` shows the minutes, and each other message.
pub fn the_last_days_of_a_unit_file_are_told()
    ensures all { (last : ℕ) (messages : List FileMessage) → length (days_told messages) ≤ last
        → json_of_unit (Some last) messages ≡ json_of_unit None messages }
    ensures days { (last : ℕ) (messages : List FileMessage) →
        days_told (messages_in (of_last_days last messages)) ≡ newest last (days_told messages) }
    ensures others { (last : ℕ) (messages : List FileMessage) →
        of_no_day (messages_in (of_last_days last messages)) ≡ of_no_day messages }
{}

/// Of a string of days all records are told where it has no more than so many, else so many.
pub fn the_newest_days_of_a_card_are_told()
    ensures all { (last oldest newest : ℕ) (string : List ℕ) → items_count (records_of oldest newest string) ≤ last
        → string_shown (Some last) oldest newest string ≡ string_shown None oldest newest string }
    ensures many { (last oldest newest : ℕ) (string : List ℕ) → last ≤ items_count (records_of oldest newest string)
        → items_count (newest_items (Some last) (records_of oldest newest string)) ≡ last }
{}

/// What a unit writes is told under its name: the fields of an insertion, a fault, an event, an over speeding and a
/// place stand in the tables where the unit writes them.
pub fn what_a_unit_writes_is_told_under_its_name()
    ensures insertion { StandFrom 2 insertion_widths (fields_of kind.Insertion) insertion_names }
    ensures by_hand { StandFrom 11 insertion_widths (fields_of kind.Insertion) (codes "manualInputFlag" ∷ []) }
    ensures fault { StandFrom 0 fault_widths (fields_of kind.UnitFault) fault_names }
    ensures event { StandFrom 0 event_widths (fields_of kind.UnitEvent) event_names }
    ensures similar { StandFrom 8 event_widths (fields_of kind.UnitEvent) (codes "similarEventsNumber" ∷ []) }
    ensures over { StandFrom 0 over_widths (fields_of kind.Overspeed) over_names }
    ensures place { StandFrom 0 place_widths (group_fields Place) place_names }
{}

/// What is written on a card is told under its name: the same of an event, a vehicle and a place of a card.
pub fn what_a_card_holds_is_told_under_its_name()
    ensures event { StandFrom 0 card_event_widths (fields_of kind.CardEvent) card_event_names }
    ensures vehicle { StandFrom 0 vehicle_widths (fields_of kind.Vehicle) vehicle_names }
    ensures place { StandFrom 0 place_widths (fields_of kind.CardPlace) place_names }
{}

/// The events of a card are six lists, one for each of their types, and its faults two: each as long as the sizes of
/// the card say.
pub fn the_events_of_a_card_stand_by_their_types()
    ensures events { (app : Application) (value : List ℕ) → length value ≡ size_of app (file 0x0502)
        → told None Events value ≡ object (member (codes "cardEventRecords")
        (array (lists_of 6 app.events kind.CardEvent value)) no_members) }
    ensures faults { (app : Application) (value : List ℕ) → length value ≡ size_of app (file 0x0503)
        → told None Faults value ≡ object (member (codes "cardFaultRecords")
        (array (lists_of 2 app.faults kind.CardFault value)) no_members) }
{}

/// Where a card's string of days holds days, its records show these, one each.
pub fn a_card_s_days_are_told()
    ensures { (app : Application) (value : List ℕ) (days : List Day) → IsStringShape (string_alone app)
        → length value ≡ 4 + app.activity → HoldsDays (string_alone app) value days
        → ShowDays (records_of (big_number 2 value) (big_number 2 (drop 2 value)) (drop 4 value)) days }
{}

/// What a unit writes of an insertion is told in its form: times as times, odometers as numbers, the card as a card.
pub fn an_insertion_is_told_in_its_form()
    ensures times { HaveForm Time (fields_of kind.Insertion)
        (codes "cardExpiryDate" ∷ codes "cardInsertionTime" ∷ codes "cardWithdrawalTime" ∷ []) }
    ensures odometers { HaveForm Number (fields_of kind.Insertion)
        (codes "vehicleOdometerValueAtInsertion" ∷ codes "vehicleOdometerValueAtWithdrawal" ∷ []) }
    ensures card { HaveForm Card (fields_of kind.Insertion) (codes "fullCardNumber" ∷ []) }
    ensures before { HaveForm Time (group_fields PreviousVehicle) (codes "cardWithdrawalTime" ∷ []) }
{}

/// The times and the cards of a unit's events, faults, over speedings, places, days and speeds are told as such.
pub fn what_a_unit_notes_is_told_in_its_form()
    ensures event { HaveForm Time (fields_of kind.UnitEvent) (codes "eventBeginTime" ∷ codes "eventEndTime" ∷ [])
        × HaveForm Card (fields_of kind.UnitEvent) card_names }
    ensures fault { HaveForm Time (fields_of kind.UnitFault) (codes "faultBeginTime" ∷ codes "faultEndTime" ∷ [])
        × HaveForm Card (fields_of kind.UnitFault) card_names }
    ensures over { HaveForm Time (fields_of kind.Overspeed) (codes "eventBeginTime" ∷ codes "eventEndTime" ∷ [])
        × HaveForm Number (fields_of kind.Overspeed) (codes "maxSpeedValue" ∷ codes "averageSpeedValue" ∷ []) }
    ensures place { HaveForm Time (group_fields Place) (codes "entryTime" ∷ [])
        × HaveForm Number (group_fields Place) (codes "vehicleOdometerValue" ∷ []) }
    ensures day { HaveForm Time (fields_of kind.Day) (codes "timeReal" ∷ [])
        × HaveForm Number (fields_of kind.Day) (codes "odometerValueMidnight" ∷ []) }
    ensures speeds { HaveForm Time (fields_of kind.SpeedBlock) (codes "speedBlockBeginDate" ∷ []) }
{}

/// And those of a card: its events, vehicles, places, its open session and its days.
pub fn what_a_card_holds_is_told_in_its_form()
    ensures event { HaveForm Time (fields_of kind.CardEvent) (codes "eventBeginTime" ∷ codes "eventEndTime" ∷ []) }
    ensures vehicle { HaveForm Time (fields_of kind.Vehicle) (codes "vehicleFirstUse" ∷ codes "vehicleLastUse" ∷ [])
        × HaveForm Number (fields_of kind.Vehicle) (codes "vehicleOdometerBegin" ∷ codes "vehicleOdometerEnd" ∷ []) }
    ensures place { HaveForm Time (fields_of kind.CardPlace) (codes "entryTime" ∷ [])
        × HaveForm Number (fields_of kind.CardPlace) (codes "vehicleOdometerValue" ∷ []) }
    ensures session { HaveForm Time (fields_of kind.CurrentUse) (codes "sessionOpenTime" ∷ []) }
    ensures day { HaveForm Time (fields_of kind.DailyRecord) (codes "activityRecordDate" ∷ [])
        × HaveForm Number (fields_of kind.DailyRecord) (codes "activityDayDistance" ∷ []) }
{}
