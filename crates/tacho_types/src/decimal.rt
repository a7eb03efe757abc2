//! Numbers in binary coded decimal.
ghost use Rattle.std.specs.Prelude.{◌≡◌, ◌<◌, ◌≤◌, length, IfOk, Ok, nat_lt, position};
ghost use Rattle.tacho_types.specs.Decimal as spec;
ghost use Rattle.tacho_types.specs.Decimal.{bcd2_bytes, bcd2_of};

/// A number to 9999 that stands in two bytes, a decimal digit in each half-byte.
#[derive(Clone, Copy, Debug, Default, PartialEq, Eq)]
pub struct Bcd2(pub u16);

impl Bcd2 {
    /// Its size in bytes.
    pub const SIZE: usize = 2;
}

/// The place, 0 to 3, of the first half-byte that is no decimal digit.
#[derive(Clone, Copy, Debug, Default, PartialEq, Eq)]
pub struct BadValue(pub u8);

/// The number in two bytes, a decimal digit in each half-byte.
///
/// # Errors
///
/// `BadValue` exactly where a half-byte exceeds 9, with the place of the first such one.
pub fn read_bcd2(b: &[u8]) -> Result<Bcd2, BadValue>
    requires { length b.now ≡ 2 }
    ensures value { result ≡ bcd2_of b.now }
    ensures bytes { IfOk result (λ v. bcd2_bytes v ≡ b.now) }
    ensures fits { IfOk result (λ v. v.0 ≤ 9999) }
{
    let halves = [b[0] / 16, b[0] % 16, b[1] / 16, b[1] % 16];
    match first_above_nine(&halves) {
        Some(place) => Err(BadValue(place as u8)),
        None => {
            let [thousands, hundreds, tens, ones] = halves;
            Ok(Bcd2(
                1000 * thousands as u16 + 100 * hundreds as u16 + 10 * tens as u16 + ones as u16,
            ))
        }
    }
}

/// The place of the first half-byte that is no decimal digit.
fn first_above_nine(halves: &[u8]) -> Option<usize>
    ensures { result ≡ position (λ half. nat_lt 9 half) halves.now }
{
    halves.iter().position(|half| *half > 9)
}

/// Writes a number to 9999 into two bytes.
pub fn write_bcd2(v: Bcd2, out: &mut [u8])
    requires digits { v.0 ≤ 9999 }
    requires size { length out.old ≡ 2 }
    ensures bytes { out.new ≡ bcd2_bytes v }
    ensures reads_back { bcd2_of out.new ≡ Ok v }
{
    out.copy_from_slice(&[digits_byte(v.0 / 100), digits_byte(v.0 % 100)]);
}

/// Two decimal digits in a byte.
fn digits_byte(n: u16) -> u8
    requires { n < 100 }
    ensures { result ≡ spec.digits_byte n }
{
    (n / 10 * 16 + n % 10) as u8
}
