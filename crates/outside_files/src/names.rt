//! Names of files among words.
ghost use Rattle.std.specs.Prelude.{◌≡◌, ◌≤◌, length, map, string_bytes};
ghost use Rattle.outside_files.specs.Names.{is_name, marks_name, EndsInNames};

/// Whether a word is the name of a file: a `.` or a `/` is in it, which no word of a form that reads a file has.
pub fn is_name(word: &str) -> bool
    ensures { result ≡ is_name word.now }
{
    word.as_bytes().iter().any(|c| marks_name(*c))
}

/// Whether a character is in names of files alone.
fn marks_name(c: u8) -> bool
    ensures { result ≡ marks_name c }
{
    c == b'.' || c == b'/'
}

/// How many words stand before the names that end them: all words where the last one is no name.
pub fn words_before_names(words: &[String]) -> usize
    ensures names { EndsInNames (map string_bytes words.now) result }
    ensures inside { result ≤ length words.now }
{
    let mut before = 0;
    for (i, word) in words.iter().enumerate() {
        if !is_name(word.as_str()) {
            before = i + 1;
        }
    }
    before
}
