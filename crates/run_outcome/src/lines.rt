//! A list of lines of an outcome, which never grows beyond the room that was taken for it.
ghost use Rattle.std.specs.Prelude.{◌≡◌, ◌+◌, ◌<◌, ◌≤◌, ◌++◌, ◌∷◌, [], ◌==◌, IfOk, OnOk, OnErr, IsOk, length, map};
ghost use Rattle.std.specs.Prelude.{slice_get, Some};

use log_model::Break;
use std::alloc::Global;
use std::marker::Model;
use tach_media::Memory;

/// Lines in order of time.
#[derive(Drop)]
pub struct Lines<T> {
    list: Vec<T>,
    room: usize,
}

impl<T> Model for Lines<T> {
    ghost use Rattle.std.specs.Prelude.{◌≤◌, vec_capacity, vec_len};
    ghost use Rattle.run_outcome.specs.Lines.{Listed};

    ghost Value = { Listed T };

    ghost view = { λ l. record { items = l.list.items; room = l.room } };

    ghost invariant = { λ l. (l.room ≤ vec_capacity l.list) × (vec_len l.list ≤ l.room) };
}

impl<T: Copy> Lines<T> {
    /// No line, and room for none; it takes no memory.
    pub fn new(alloc: Global) -> Lines<T>
        ensures { result ≡ record { items = []; room = 0 } }
    {
        Lines {
            list: Vec::new(alloc),
            room: 0,
        }
    }

    /// No line, and room for so many.
    ///
    /// # Errors
    ///
    /// `Memory` where there is none.
    pub fn with_room(alloc: Global, room: usize) -> Result<Lines<T>, Memory>
        ensures { IfOk result (λ lines. lines ≡ record { items = []; room = room }) }
    {
        match Vec::with_capacity(alloc, room) {
            Ok(list) => Ok(Lines { list, room }),
            Err(_) => Err(Memory),
        }
    }

    /// Takes room for so many more lines, where there is less. The lines stay, whatever the answer.
    ///
    /// # Errors
    ///
    /// `Memory` where there is none.
    pub fn make_room(&mut self, more: usize) -> Result<(), Memory>
        ensures items { self.new.items ≡ self.old.items }
        ensures room { OnOk result (length self.old.items + more ≤ self.new.room) }
        ensures grows { self.old.room ≤ self.new.room }
        ensures same { OnErr result (self.new ≡ self.old) }
        ensures enough { length self.old.items + more ≤ self.old.room → IsOk result }
    {
        if self.room - self.list.len() >= more {
            return Ok(());
        }
        if self.list.reserve(more).is_err() {
            return Err(Memory);
        }
        self.room = self.list.capacity();
        Ok(())
    }

    /// How many lines it has.
    pub fn len(&self) -> usize
        ensures { result ≡ length self.now.items }
    {
        self.list.len()
    }

    /// Whether it has none.
    pub fn is_empty(&self) -> bool
        ensures { result ≡ (length self.now.items == 0) }
    {
        self.list.is_empty()
    }

    /// The line at an index.
    pub fn get(&self, index: usize) -> &T
        requires { index < length self.now.items }
        ensures { slice_get self.now.items index ≡ Some result.now }
    {
        &self.list[index]
    }

    /// Adds a line at the end.
    pub fn add(&mut self, line: T)
        requires { length self.old.items < self.old.room }
        ensures { self.new ≡ record { items = self.old.items ++ line ∷ []; room = self.old.room } }
    {
        self.list.push(line).unwrap();
    }

    /// Adds a line at the end, where there is room.
    pub fn add_if_room(&mut self, line: T)
        ensures room { length self.old.items < self.old.room
            → self.new ≡ record { items = self.old.items ++ line ∷ []; room = self.old.room } }
        ensures full { self.old.room ≤ length self.old.items → self.new ≡ self.old }
    {
        if self.list.len() < self.room {
            self.add(line);
        }
    }
}

impl Lines<Break> {
    ghost use Rattle.run_outcome.specs.Lines.{found_from};

    /// The power-on that comes after these breaks, from an index on, has found this last-kept minute.
    pub fn find(&mut self, from: usize, kept: u32)
        requires { from ≤ length self.old.items }
        ensures { self.new ≡ record { items = found_from from kept self.old.items; room = self.old.room } }
    {
        find_kept(&mut self.list.as_mut_slice()[from..], kept);
    }
}

// A break, after which this minute was found to be the last-kept one.
fn found_kept(line: Break, kept: u32) -> Break
    ensures { result ≡ with_kept kept line }
{
    match line {
        Break::Cut {
            second,
            failed,
            begun,
            ..
        } => Break::Cut {
            second,
            kept,
            failed,
            begun,
        },
        Break::Tear { .. } => line,
    }
}

// Each cut tells that this minute was found to be the last-kept one after it.
fn find_kept(breaks: &mut [Break], kept: u32)
    ensures { breaks.new ≡ map (with_kept kept) breaks.old }
{
    for i in 0..breaks.len() {
        breaks[i] = found_kept(breaks[i], kept);
    }
}

ghost use Rattle.run_outcome.specs.Lines.{with_kept};
