//! Writes that are known before the first of them is made.
ghost use Rattle.std.specs.Prelude.{◌≡◌, ◌≤◌, ◌<◌, ◌+◌, ◌-◌, ◌∷◌, [], length, is_err, true};
ghost use Rattle.tach_media.specs.Medium.{LiesInside, LeavesOnly};
ghost use Rattle.tach_media.specs.Plan.{piece, more, none, PutsAll, AreShort, IsAfterSome};

use crate::{Failed, Medium};
use arrayvec::ArrayVec;
use std::marker::Model;

// A write: its place and its bytes.
#[derive(Drop, Default)]
struct Held<const B: usize> {
    place: u32,
    bytes: ArrayVec<u8, B>,
}

/// Writes to come, in their order, of at most `N` pieces of at most `B` bytes, all from `from` on and before `end`.
#[derive(Drop)]
pub struct Plan<const N: usize, const B: usize> {
    from: u32,
    end: u32,
    pieces: ArrayVec<Held<B>, N>,
}

impl<const N: usize, const B: usize> Model for Plan<N, B> {
    ghost use Rattle.std.specs.Prelude.{map};
    ghost use Rattle.tach_media.specs.Plan.{Pieces, IsPlan};

    ghost Value = { Pieces };

    ghost use Rattle.tach_media.specs.Held.{piece_of};

    ghost view = { λ p. record { from = p.from; end = p.end; pieces = map piece_of p.pieces.items } };

    ghost invariant = { λ p. IsPlan (record { from = p.from; end = p.end; pieces = map piece_of p.pieces.items }) };
}

impl<const N: usize, const B: usize> Plan<N, B> {
    /// No piece yet.
    pub fn new(from: u32, end: u32) -> Plan<N, B>
        requires { B < 255 }
        ensures { result ≡ none from end }
    {
        Plan {
            from,
            end,
            pieces: ArrayVec::new(),
        }
    }

    /// One piece more.
    pub fn put(&mut self, place: u32, bytes: &[u8])
        requires room { length self.old.pieces < N }
        requires some { 0 < length bytes.now }
        requires short { length bytes.now ≤ B }
        requires at_once { length bytes.now ≤ 255 }
        requires behind { self.old.from ≤ place }
        requires inside { place + length bytes.now ≤ self.old.end }
        ensures { self.new ≡ more self.old (piece place bytes.now ∷ []) }
    {
        self.pieces.push(Held {
            place,
            bytes: kept(bytes),
        });
    }
}

/// These bytes, for which there is room.
fn kept<const B: usize>(bytes: &[u8]) -> ArrayVec<u8, B>
    requires { length bytes.now ≤ B }
    ensures { result.items ≡ bytes.now }
{
    let mut room = ArrayVec::new();
    let _ = room.try_extend_from_slice(bytes);
    room
}

/// Writes the pieces of a plan, one after the other. At each moment of the call those before one are written, and that
/// one is cut short; where none has more than four bytes, the first few are written.
///
/// # Errors
///
/// `Failed` where a write failed; none is begun behind it.
pub fn put_pieces<M: Medium, const N: usize, const B: usize>(
    medium: &mut M,
    plan: &Plan<N, B>,
) -> Result<(), Failed>
    requires works { length plan.now.pieces ≡ 0 → (M.state medium.old).works ≡ true }
    requires inside { plan.now.end ≤ (M.state medium.old).size }
    requires writable { LiesInside (M.state medium.old).writable plan.now.from (plan.now.end - plan.now.from) }
    ensures puts { PutsAll (M.state medium.old) (M.state medium.new) (is_err result) plan.now.pieces }
    ensures whole { AreShort plan.now.pieces
        → LeavesOnly (M.state medium.old) (M.state medium.new) (IsAfterSome plan.now.pieces) }
{
    for held in plan.pieces.as_slice() {
        medium.write_at(held.place, held.bytes.as_slice())?;
    }
    Ok(())
}
