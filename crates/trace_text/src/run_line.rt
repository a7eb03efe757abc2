//! The `run` line at the head of a text: a long trace has hardly another, and here each of its bytes is looked at once.
ghost use Rattle.std.specs.Prelude.{◌≡◌, ◌<◌, ◌∷◌, ◌++◌, IfSome, IsTrue, codes, decimal, length, slice_index};
ghost use Rattle.trace_model.specs.declared.Item.TheVariants.{Run};
ghost use Rattle.trace_text.specs.Line.{InRange};
ghost use Rattle.trace_text.specs.RunLines.{run_line};
ghost use Rattle.trace_text.specs.Text.{text_lines};

use crate::line::MOST;

/// The bytes before the seconds.
const WORD: usize = 4;

/// The largest speed of a line.
const FASTEST: u32 = 255;

/// The largest number that is read.
const LAST: u64 = 4294967295;

/// The seconds and the speed of a `run` line at the head of a text, and what is behind its LF. `None` says nothing: the
/// line is read by its fields then.
pub fn first_run(text: &[u8]) -> Option<(u32, u8, &[u8])>
    ensures lines { IfSome result (λ r. text_lines text.now ≡ run_line r.0 r.1 ∷ text_lines r.2.now) }
    ensures range { IfSome result (λ r. InRange (Run r.0 r.1)) }
    ensures shorter { IfSome result (λ r. length r.2.now < length text.now) }
{
    let digits = behind_run(text)?;
    let (seconds, behind) = first_number(digits, b' ')?;
    let (speed, rest) = first_number(behind, b'\n')?;
    if seconds < 1 || seconds > MOST || speed > FASTEST {
        return None;
    }
    Some((seconds, speed as u8, rest))
}

/// What is behind `run` and a space.
fn behind_run(text: &[u8]) -> Option<&[u8]>
    ensures { IfSome result (λ rest. text.now ≡ codes "run " ++ rest.now) }
{
    if text.len() < WORD {
        return None;
    }
    if text[0] == b'r' && text[1] == b'u' && text[2] == b'n' && text[3] == b' ' {
        Some(&text[WORD..])
    } else {
        None
    }
}

/// The number at the head of a text, and what is behind the separator that follows its digits.
fn first_number(text: &[u8], separator: u8) -> Option<(u32, &[u8])>
    ensures { IfSome result (λ f. text.now ≡ decimal f.0 ++ separator ∷ f.1.now) }
{
    let mut value = 0;
    for (i, byte) in text.iter().enumerate() {
        if *byte == separator {
            if !is_numeral(&text[..i]) {
                return None;
            }
            return Some((value, &text[i + 1..]));
        }
        if *byte < b'0' || *byte > b'9' {
            return None;
        }
        let next = value as u64 * 10 + (*byte - b'0') as u64;
        if next > LAST {
            return None;
        }
        value = next as u32;
    }
    None
}

/// Whether there are digits, and no zero stands at their head but that of 0.
fn is_numeral(digits: &[u8]) -> bool
    ensures some { IsTrue result → 0 < length digits.now }
    ensures head { IsTrue result → slice_index digits.now 0 ≡ 48 → length digits.now ≡ 1 }
{
    match digits {
        [] => false,
        [first, ..] => *first != b'0' || digits.len() == 1,
    }
}
