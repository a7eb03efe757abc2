//! Nations and card numbers.
ghost use Rattle.std.specs.Prelude.{◌≡◌, length};
ghost use Rattle.tacho_types.specs.CardNumber.{card_number_bytes, card_number_of};

/// A nation's number (Appendix 1, NationNumeric).
#[derive(Clone, Copy, Debug, Default, PartialEq, Eq)]
pub struct Nation(pub u8);

/// What names a card: its type, the state that issued it, and its number with the two indices (Appendix 1,
/// FullCardNumber).
#[derive(Clone, Copy, Debug, Default, PartialEq, Eq)]
pub struct FullCardNumber {
    pub kind: u8,
    pub state: Nation,
    pub number: [u8; 16],
}

impl FullCardNumber {
    /// Its size in bytes.
    pub const SIZE: usize = 18;
}

/// The card number in 18 bytes.
pub fn read_card_number(b: &[u8]) -> FullCardNumber
    requires { length b.now ≡ 18 }
    ensures value { result ≡ card_number_of b.now }
    ensures bytes { card_number_bytes result ≡ b.now }
{
    let (front, rest) = b.split_at(2);
    let mut number = [0; 16];
    number.copy_from_slice(rest);
    FullCardNumber {
        kind: front[0],
        state: Nation(front[1]),
        number,
    }
}

/// Writes a card number into 18 bytes.
pub fn write_card_number(v: &FullCardNumber, out: &mut [u8])
    requires { length out.old ≡ 18 }
    ensures bytes { out.new ≡ card_number_bytes v.now }
    ensures reads_back { card_number_of out.new ≡ v.now }
{
    let (front, rest) = out.split_at_mut(2);
    front[0] = v.kind;
    front[1] = v.state.0;
    rest.copy_from_slice(&v.number);
}
