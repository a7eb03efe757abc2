//! The forms `help` and `--version`: a text that is always the same.
ghost use Rattle.std.specs.Prelude.{◌≡◌, ◌≤◌};
ghost use Rattle.tacho.specs.End.{end_of};
ghost use Rattle.tacho.specs.Help.{help_text, version_text, EndsText};

use crate::end::Fault;
use crate::printing::print_text;
use tach_media::Sink;

/// What `help` prints: the forms, a line each, how a file is named, and one example.
const HELP: &[u8] = b"\
tacho minutes < TRACE                    print the minutes of a trace, with no card
tacho minutes 2009 < TRACE               print them by the rule as amended in 2009
tacho record < TRACE                     record a trace on unit.img, card-a.img and card-b.img
tacho serve                              answer a downloader's frames
tacho serve --hex                        answer frames that are lines of hexadecimal digits
tacho serve packets                      answer a downloader's packets, which may be lost and repeated
tacho serve card a|b                     let a card answer the commands that come as packets
tacho download > FILE                    write the unit's file
tacho download noisy X > FILE            write it over a link that loses and repeats, drawn from X
tacho download packets                   ask a unit by packets, and write its file to unit.ddd
tacho card a|b > FILE                    write a card's file
tacho view < FILE                        print the minutes of a unit's file, or a card's entries
tacho view last N < FILE                 print the minutes of its last N days (1 to 366)
tacho view manual < FILE                 print the entries by hand of a card's file
tacho totals < FILE                      print the hours of each day of a unit's or a card's file
tacho totals last N < FILE               print those of its last N days
tacho chart < FILE > PICTURE             draw its days as one SVG
tacho chart last N < FILE > PICTURE      draw its last N days
tacho speeds < FILE                      print the speed of each minute of a unit's file
tacho speeds last N < FILE               print that of its last N minutes (1 to 1440)
tacho show < FILE                        print all that stands in a unit's or a card's file, as JSON
tacho show last N < FILE                 print it with only its last N days
tacho match < FILES                      say whether a card's file, put after a unit's, stands in it
tacho match all < FILES                  print each difference, and the counts
tacho format unit N PLATE VIN LIMIT      make a new unit in unit.img: what it held goes to unit.img.before
tacho format a|b N NUMBER SURNAME FIRST  make a new card in card-a.img or card-b.img: what it held goes the same way
tacho upgrade                            give the unit the amended rule of minutes, for good
tacho state                              print what the unit and the cards tell of themselves
tacho demo X                             record forty days drawn from X: what unit and card a held goes the same way
tacho help, tacho --help                 print these lines
tacho --version                          print the version, and the logic of the toolchain
A name of a file with . or / in it may stand in place of < and the file: tacho view unit.ddd
Example: (echo start 1267401600; echo run 3600 50) | tacho minutes
";

/// What `--version` prints: the version, and the logic of the toolchain which proves it.
const VERSION: &[u8] = b"tacho 2.0.0
logic dac8208d650f15bf
";

/// The form `help`.
///
/// # Errors
///
/// `WriteFault` where the sink failed: a front of the lines went to it.
pub fn print_help<K: Sink>(sink: &mut K) -> Result<(), Fault>
    ensures ends { EndsText help_text (record { held = K.held sink.old; faults = K.faults sink.old })
        (record { held = K.held sink.new; faults = K.faults sink.new }) (end_of result) }
    ensures counts { K.faults sink.old ≤ K.faults sink.new }
{
    print_text(help_text(), sink)
}

/// The form `--version`.
///
/// # Errors
///
/// `WriteFault` where the sink failed: a front of the lines went to it.
pub fn print_version<K: Sink>(sink: &mut K) -> Result<(), Fault>
    ensures ends { EndsText version_text (record { held = K.held sink.old; faults = K.faults sink.old })
        (record { held = K.held sink.new; faults = K.faults sink.new }) (end_of result) }
    ensures counts { K.faults sink.old ≤ K.faults sink.new }
{
    print_text(version_text(), sink)
}

/// The lines of `help`.
fn help_text() -> &'static [u8]
    ensures { result.now ≡ help_text }
{
    HELP
}

/// The lines of `--version`.
fn version_text() -> &'static [u8]
    ensures { result.now ≡ version_text }
{
    VERSION
}
