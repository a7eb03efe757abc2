//! What Current_Usage holds.
ghost use Rattle.std.specs.Prelude.{◌≡◌, length};
ghost use Rattle.card_files.specs.CurrentUses.{current_use_bytes, current_use_of};

use tacho_types::{
    Registration, TimeReal, read_registration, read_time, write_registration, write_time,
};

/// The use of the vehicle in which the card is (Appendix 1, CardCurrentUse).
#[derive(Clone, Copy, Debug, Default, PartialEq, Eq)]
pub struct CurrentUse {
    /// When the session was opened, 0 where none is open.
    pub session: TimeReal,
    pub registration: Registration,
}

impl CurrentUse {
    /// Its size in bytes.
    pub const SIZE: usize = 19;
}

/// The current use in 19 bytes.
#[tactic(auto, unfolding(crate::specs::CurrentUses::current_use_bytes, crate::specs::CurrentUses::current_use_of))]
pub fn read_current_use(b: &[u8]) -> CurrentUse
    requires { length b.now ≡ 19 }
    ensures value { result ≡ current_use_of b.now }
    ensures bytes { current_use_bytes result ≡ b.now }
{
    let (session, registration) = b.split_at(TimeReal::SIZE);
    CurrentUse {
        session: read_time(session),
        registration: read_registration(registration),
    }
}

/// Writes a current use into 19 bytes.
#[tactic(auto, unfolding(crate::specs::CurrentUses::current_use_bytes, crate::specs::CurrentUses::current_use_of))]
pub fn write_current_use(v: &CurrentUse, out: &mut [u8])
    requires { length out.old ≡ 19 }
    ensures bytes { out.new ≡ current_use_bytes v.now }
    ensures reads_back { current_use_of out.new ≡ v.now }
{
    let (session, registration) = out.split_at_mut(TimeReal::SIZE);
    write_time(v.session, session);
    write_registration(&v.registration, registration);
}
