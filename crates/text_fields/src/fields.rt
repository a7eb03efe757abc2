//! Pieces of text between separators.
ghost use Rattle.std.specs.Prelude.{◌≡◌, ◌↔◌, ℕ, ◌<◌, ◌∷◌, [], IfSome, IfNone, IsTrue, List, length};
ghost use Rattle.text_fields.specs.Pieces.{pieces, pieces_behind};

/// The first piece, and what is behind its separator, if there is one.
pub fn first_piece(text: &[u8], separator: u8) -> (&[u8], Option<&[u8]>)
    ensures pieces { pieces separator text.now ≡ result.0.now ∷ pieces_behind separator result.1 }
    ensures shorter { IfSome result.1 (λ rest. length rest.now < length text.now) }
{
    for (i, byte) in text.iter().enumerate() {
        if *byte == separator {
            return (&text[..i], Some(&text[i + 1..]));
        }
    }
    (text, None)
}

/// Whether a field is this word.
pub fn is_word(field: &[u8], word: &[u8]) -> bool
    ensures { IsTrue result ↔ (field.now ≡ word.now) }
{
    field == word
}

/// The field of a text of one: no space is in it.
pub fn one_field(text: &[u8]) -> Option<&[u8]>
    ensures found { IfSome result (λ field. pieces 32 text.now ≡ field.now ∷ []) }
    ensures none { IfNone result ((a : List ℕ) → pieces 32 text.now ≡ a ∷ [] → ⊥) }
{
    let (first, behind) = first_piece(text, b' ');
    match behind {
        Some(_) => None,
        None => Some(first),
    }
}

/// The fields of a text of two.
pub fn two_fields(text: &[u8]) -> Option<(&[u8], &[u8])>
    ensures found { IfSome result (λ f. pieces 32 text.now ≡ f.0.now ∷ f.1.now ∷ []) }
    ensures none { IfNone result ((a b : List ℕ) → pieces 32 text.now ≡ a ∷ b ∷ [] → ⊥) }
{
    let (first, behind) = first_piece(text, b' ');
    let rest = behind?;
    let second = one_field(rest)?;
    Some((first, second))
}

/// The fields of a text of three.
pub fn three_fields(text: &[u8]) -> Option<(&[u8], &[u8], &[u8])>
    ensures found { IfSome result (λ f. pieces 32 text.now ≡ f.0.now ∷ f.1.now ∷ f.2.now ∷ []) }
    ensures none { IfNone result ((a b c : List ℕ) → pieces 32 text.now ≡ a ∷ b ∷ c ∷ [] → ⊥) }
{
    let (first, behind) = first_piece(text, b' ');
    let rest = behind?;
    let (second, third) = two_fields(rest)?;
    Some((first, second, third))
}

/// The fields of a text of four.
pub fn four_fields(text: &[u8]) -> Option<(&[u8], &[u8], &[u8], &[u8])>
    ensures found { IfSome result (λ f. pieces 32 text.now ≡ f.0.now ∷ f.1.now ∷ f.2.now ∷ f.3.now ∷ []) }
    ensures none { IfNone result ((a b c d : List ℕ) → pieces 32 text.now ≡ a ∷ b ∷ c ∷ d ∷ [] → ⊥) }
{
    let (first, behind) = first_piece(text, b' ');
    let rest = behind?;
    let (second, behind) = first_piece(rest, b' ');
    let rest = behind?;
    let (third, fourth) = two_fields(rest)?;
    Some((first, second, third, fourth))
}
