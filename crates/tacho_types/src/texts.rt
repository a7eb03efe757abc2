//! Registrations and names, kept byte for byte.
ghost use Rattle.std.specs.Prelude.{◌≡◌, ◌+◌, ◌-◌, ◌≤◌, length};
ghost use Rattle.tacho_types.specs.Texts.{padded_text};

/// A vehicle's registration: nation, code page, and 13 characters (Appendix 1,
/// VehicleRegistrationIdentification).
#[derive(Clone, Copy, Debug, Default, PartialEq, Eq)]
pub struct Registration(pub [u8; 15]);

impl Registration {
    /// Its size in bytes.
    pub const SIZE: usize = 15;
}

/// A name: code page and 35 characters (Appendix 1, Name).
#[derive(Clone, Copy, Debug, PartialEq, Eq)]
pub struct Name36(pub [u8; 36]);

impl Name36 {
    /// Its size in bytes.
    pub const SIZE: usize = 36;
}

/// The registration in 15 bytes.
pub fn read_registration(b: &[u8]) -> Registration
    requires { length b.now ≡ 15 }
    ensures { result.0 ≡ b.now }
{
    let mut bytes = [0; 15];
    bytes.copy_from_slice(b);
    Registration(bytes)
}

/// Writes a registration into 15 bytes.
pub fn write_registration(v: &Registration, out: &mut [u8])
    requires { length out.old ≡ 15 }
    ensures { out.new ≡ v.now.0 }
{
    out.copy_from_slice(&v.0);
}

/// The name in 36 bytes.
pub fn read_name(b: &[u8]) -> Name36
    requires { length b.now ≡ 36 }
    ensures { result.0 ≡ b.now }
{
    let mut bytes = [0; 36];
    bytes.copy_from_slice(b);
    Name36(bytes)
}

/// Writes a name into 36 bytes.
pub fn write_name(v: &Name36, out: &mut [u8])
    requires { length out.old ≡ 36 }
    ensures { out.new ≡ v.now.0 }
{
    out.copy_from_slice(&v.0);
}

/// Writes text as code page 1 and its characters, padded with spaces.
pub fn write_padded(text: &[u8], out: &mut [u8])
    requires { length text.now + 1 ≤ length out.old }
    ensures { out.new ≡ padded_text (length out.old - 1) text.now }
{
    let (page, characters) = out.split_at_mut(1);
    page.copy_from_slice(&[1]);
    let (front, spaces) = characters.split_at_mut(text.len());
    front.copy_from_slice(text);
    spaces.fill(b' ');
}
