//! Numbers in text: decimal, without a sign or a leading zero.
ghost use Rattle.std.specs.Prelude.{◌≡◌, ℕ, ◌<◌, ◌≤◌, ◌^◌, IfSome, IfNone, decimal};
ghost use Rattle.std.specs.Str.Parse.{AllDigits, digits_value};

/// The largest number that is read.
const LAST: u64 = 4294967295;

/// How many digits 0 has; other numbers do not begin with it.
const DIGITS_OF_ZERO: usize = 1;

/// The number that these digits spell.
pub fn number(digits: &[u8]) -> Option<u32>
    ensures found { IfSome result (λ n. digits.now ≡ decimal n) }
    ensures none { IfNone result ((n : ℕ) → n < 2 ^ 32 → digits.now ≡ decimal n → ⊥) }
{
    if digits.len() == 0 {
        return None;
    }
    if digits[0] == b'0' && digits.len() > DIGITS_OF_ZERO {
        return None;
    }
    value(digits)
}

/// The number from `least` to `most` that these digits spell.
pub fn number_between(digits: &[u8], least: u32, most: u32) -> Option<u32>
    ensures found { IfSome result (λ n. (digits.now ≡ decimal n) × (least ≤ n) × (n ≤ most)) }
    ensures none { IfNone result ((n : ℕ) → digits.now ≡ decimal n → least ≤ n → n ≤ most → ⊥) }
{
    match number(digits) {
        Some(n) if least <= n && n <= most => Some(n),
        _ => None,
    }
}

/// The number from 0 to 255 that these digits spell.
pub fn byte(digits: &[u8]) -> Option<u8>
    ensures found { IfSome result (λ n. digits.now ≡ decimal n) }
    ensures none { IfNone result ((n : ℕ) → n ≤ 255 → digits.now ≡ decimal n → ⊥) }
{
    match number_between(digits, 0, 255) {
        Some(n) => Some(n as u8),
        None => None,
    }
}

/// The value of digits, also with zeros at their head, where it is below 2^32.
fn value(digits: &[u8]) -> Option<u32>
    ensures found { IfSome result (λ n. AllDigits 10 digits.now × (digits_value 10 digits.now ≡ n) × (n < 2 ^ 32)) }
    ensures none { IfNone result (AllDigits 10 digits.now → digits_value 10 digits.now < 2 ^ 32 → ⊥) }
{
    let mut value = 0;
    for digit in digits {
        if *digit < b'0' || *digit > b'9' {
            return None;
        }
        let next = value as u64 * 10 + (*digit - b'0') as u64;
        if next > LAST {
            return None;
        }
        value = next as u32;
    }
    Some(value)
}
