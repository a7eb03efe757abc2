//! A stream of bytes heard: the frames in it, whatever pieces it comes in.
ghost use Rattle.std.specs.Prelude.{◌≡◌, ◌≤◌, ◌-◌, ◌++◌, ℕ, List, [], length, take, drop, IfSome, IfNone, option_map};
ghost use Rattle.std.specs.Prelude.{option_to_list, true};
ghost use Rattle.link_model.specs.Frames.{Heard, IsUnfinished, Stream};
ghost use Rattle.link_model.specs.Hearing.{heard_in, kept_after};
ghost use Rattle.link_frames.specs.Seen.{meant};

use crate::frame::Seen;
use crate::hearing::{KEPT, hear};
use arrayvec::ArrayVec;
use link_model::End;
use std::marker::Model;

/// Hears the frames in a stream of bytes, which may come in any pieces. A byte at which no frame can begin is passed
/// over, and a frame with a wrong sum is taken whole.
#[derive(Drop)]
pub struct Scanner {
    end: End,
    kept: ArrayVec<u8, KEPT>,
}

impl Model for Scanner {
    ghost use Rattle.std.specs.Prelude.{◌≡◌, true};
    ghost use Rattle.link_model.specs.Hearing.{is_kept};
    ghost use Rattle.link_frames.specs.Scanning.{Scan};

    ghost Value = { Scan };

    ghost view = { λ s. record { end = s.end; kept = s.kept.items } };

    ghost invariant = { λ s. is_kept s.end s.kept.items ≡ true };
}

impl Scanner {
    /// Nothing was heard yet, on this side.
    pub fn new(end: End) -> Scanner
        ensures { result ≡ record { end = end; kept = [] } }
    {
        Scanner {
            end,
            kept: ArrayVec::new(),
        }
    }

    /// Takes bytes up to the end of the next frame, or all of them, and says how many it took.
    pub fn feed(&mut self, bytes: &[u8]) -> (usize, Option<Seen>)
        ensures taken { result.0 ≤ length bytes.now }
        // Where no frame ends in the bytes, all are taken.
        ensures all { IfNone result.1 (result.0 ≡ length bytes.now) }
        // A frame ends at the last byte that was taken, and none before.
        ensures heard { heard_in self.old.end self.old.kept (take result.0 bytes.now)
            ≡ option_to_list (option_map meant result.1) }
        ensures first { heard_in self.old.end self.old.kept (take (result.0 - 1) bytes.now) ≡ [] }
        ensures kept { self.new ≡ record {
          end = self.old.end;
          kept = kept_after self.old.end self.old.kept (take result.0 bytes.now);
        } }
        // However the stream goes on: what is heard now, and then what is heard of the rest, is what the whole stream
        // holds.
        ensures stream { (more : List ℕ) (seen : List Heard) (rest : List ℕ)
            → Stream self.old.end (self.new.kept ++ (drop result.0 bytes.now ++ more)) seen rest
            → Stream self.old.end (self.old.kept ++ (bytes.now ++ more))
            (option_to_list (option_map meant result.1) ++ seen) rest }
        // What is kept is the beginning of a frame.
        ensures unfinished { IsUnfinished self.new.end self.new.kept }
    {
        hear(self.end, &mut self.kept, bytes)
    }
}
