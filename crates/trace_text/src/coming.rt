//! A trace whose lines are told as they come: no item of it is kept.
ghost use Rattle.std.specs.Prelude.{◌^◌, ◌-◌, ◌≡◌, ◌↔◌, ◌+◌, ◌<◌, ℕ, List, [], ◌∷◌, ◌++◌, IsTrue, IfOk, OnOk};
ghost use Rattle.std.specs.Prelude.{IfErr, OnErr, MatchResult, None as NoSecond, Some as Second, true};
ghost use Rattle.std.specs.List.{AllByRecursion};
ghost use Rattle.trace_model.specs.declared.Item.{Item as Each};
ghost use Rattle.trace_model.specs.declared.Item.TheVariants.{Run as Driven};
ghost use Rattle.trace_model.specs.Trace.{item_seconds};
ghost use Rattle.trace_text.specs.Line.{IsItem, IsKnown, InRange};
ghost use Rattle.trace_text.specs.RunLines.{run_line};
ghost use Rattle.trace_text.specs.Text.{counts, fields};
ghost use Rattle.trace_text.specs.Trace.{IsTraceOf, IsWithinLimits, items_of, put_in, added, waits};
ghost use Rattle.trace_text.specs.Judged.{IsFailure};
ghost use Rattle.trace_text.specs.Coming.{HasCome, HasPassed, IsFaultOf, IsFaultAt, StartsBy, told};

use crate::line::{LAST, MOST, is_counted, read_item, read_start};
use crate::lines_trace::{Form, TraceFault};
use trace_model::Item;

/// The second that is put in.
pub const PUT_IN: Item = Item::Run {
    seconds: 1,
    speed: 0,
};

/// What a line of a trace tells, or its end.
#[derive(Clone, Copy, Debug, PartialEq, Eq)]
pub enum Came {
    /// No item, and no first second.
    Nothing,
    /// The first second: this is the `start` line.
    Start(u32),
    /// An item.
    Next(Item),
    /// An item behind a second that is put in: an `off`, where an action waits.
    Behind(Item),
}

/// A trace as far as its lines have come.
#[derive(Drop)]
pub struct Coming {
    /// Which lines it may have.
    pub form: Form,
    /// How many lines have come.
    pub lines: u32,
    /// The first second, once the `start` line has come.
    pub start: Option<u32>,
    /// The seconds behind it, with those that are put in before an `off`.
    pub total: u32,
    /// The last item's line, where that item is an action, which waits for a second.
    pub waiting: Option<u32>,
}

impl Coming {
    /// No line has come.
    pub fn new(form: Form) -> Self
        ensures come { HasCome [] [] result }
        ensures form { result.form ≡ form }
        ensures lines { result.lines ≡ 0 }
    {
        Coming {
            form,
            lines: 0,
            start: None,
            total: 0,
            waiting: None,
        }
    }

    /// One more line comes.
    ///
    /// # Errors
    ///
    /// `BadLine` with the line's number where it is not in the grammar, `TooLong` where a limit is passed at it or at
    /// the line of an action before it. What has come stays as it was then.
    pub fn take(&mut self, line: &[u8]) -> Result<Came, TraceFault>
        requires { self.old.lines < 2 ^ 32 - 1 }
        ensures ok { (lines : List (List ℕ)) (items : List Each) → HasCome lines items self.old
            → IfOk result (λ came. HasCome (lines ++ line.now ∷ []) (items ++ told came) self.new) }
        ensures fault { (lines behind : List (List ℕ)) (items : List Each) → HasCome lines items self.old
            → IfErr result (IsFaultOf self.old.form (lines ++ line.now ∷ behind)) }
        ensures starts { IfOk result (λ came. StartsBy came self.old.start self.new.start) }
        ensures known { IfOk result (λ came. AllByRecursion (IsKnown self.old.form) (told came)) }
        ensures cause { IfErr result (λ fault. IsFailure fault → ⊥) }
        ensures same { OnErr result (self.new ≡ self.old) }
        ensures form { self.new.form ≡ self.old.form }
        ensures lines { OnOk result (self.new.lines ≡ self.old.lines + 1) }
    {
        if !is_counted(line) {
            self.lines += 1;
            return Ok(Came::Nothing);
        }
        match self.start {
            None => self.take_start(line),
            Some(start) => self.take_item(start, line),
        }
    }

    /// The first line that counts comes.
    fn take_start(&mut self, line: &[u8]) -> Result<Came, TraceFault>
        requires lines { self.old.lines < 2 ^ 32 - 1 }
        requires first { self.old.start ≡ NoSecond }
        requires counted { counts line.now ≡ true }
        ensures ok { (lines : List (List ℕ)) (items : List Each) → HasCome lines items self.old
            → IfOk result (λ came. HasCome (lines ++ line.now ∷ []) (items ++ told came) self.new) }
        ensures fault { (lines behind : List (List ℕ)) (items : List Each) → HasCome lines items self.old
            → IfErr result (IsFaultOf self.old.form (lines ++ line.now ∷ behind)) }
        ensures starts { IfOk result (λ came. StartsBy came self.old.start self.new.start) }
        ensures known { IfOk result (λ came. AllByRecursion (IsKnown self.old.form) (told came)) }
        ensures cause { IfErr result (λ fault. IsFailure fault → ⊥) }
        ensures same { OnErr result (self.new ≡ self.old) }
        ensures form { self.new.form ≡ self.old.form }
        ensures lines { OnOk result (self.new.lines ≡ self.old.lines + 1) }
    {
        let Some(start) = read_start(line) else {
            return Err(TraceFault::BadLine(self.lines + 1));
        };
        self.start = Some(start);
        self.lines += 1;
        Ok(Came::Start(start))
    }

    /// A line that counts comes, behind the `start` line.
    fn take_item(&mut self, start: u32, line: &[u8]) -> Result<Came, TraceFault>
        requires lines { self.old.lines < 2 ^ 32 - 1 }
        requires later { self.old.start ≡ Second start }
        requires counted { counts line.now ≡ true }
        ensures ok { (lines : List (List ℕ)) (items : List Each) → HasCome lines items self.old
            → IfOk result (λ came. HasCome (lines ++ line.now ∷ []) (items ++ told came) self.new) }
        ensures fault { (lines behind : List (List ℕ)) (items : List Each) → HasCome lines items self.old
            → IfErr result (IsFaultOf self.old.form (lines ++ line.now ∷ behind)) }
        ensures starts { IfOk result (λ came. StartsBy came self.old.start self.new.start) }
        ensures known { IfOk result (λ came. AllByRecursion (IsKnown self.old.form) (told came)) }
        ensures cause { IfErr result (λ fault. IsFailure fault → ⊥) }
        ensures same { OnErr result (self.new ≡ self.old) }
        ensures form { self.new.form ≡ self.old.form }
        ensures lines { OnOk result (self.new.lines ≡ self.old.lines + 1) }
    {
        let Some(item) = read_item(self.form, line) else {
            return Err(TraceFault::BadLine(self.lines + 1));
        };
        self.take_read(start, item)
    }

    /// A line comes that was read as this item.
    fn take_read(&mut self, start: u32, item: Item) -> Result<Came, TraceFault>
        requires lines { self.old.lines < 2 ^ 32 - 1 }
        requires later { self.old.start ≡ Second start }
        requires known { IsKnown self.old.form item }
        ensures ok { (lines : List (List ℕ)) (items : List Each) (line : List ℕ) → counts line ≡ true
            → IsItem self.old.form (fields line) item → HasCome lines items self.old
            → IfOk result (λ came. HasCome (lines ++ line ∷ []) (items ++ told came) self.new) }
        ensures fault { (lines behind : List (List ℕ)) (items : List Each) (line : List ℕ) → counts line ≡ true
            → IsItem self.old.form (fields line) item → HasCome lines items self.old
            → IfErr result (IsFaultOf self.old.form (lines ++ line ∷ behind)) }
        ensures starts { IfOk result (λ came. StartsBy came self.old.start self.new.start) }
        ensures known { IfOk result (λ came. AllByRecursion (IsKnown self.old.form) (told came)) }
        ensures cause { IfErr result (λ fault. IsFailure fault → ⊥) }
        ensures same { OnErr result (self.new ≡ self.old) }
        ensures form { self.new.form ≡ self.old.form }
        ensures lines { OnOk result (self.new.lines ≡ self.old.lines + 1) }
    {
        let number = self.lines + 1;
        let total = self.total_behind(start, number, item)?;
        let came = came_of(self.waiting, item);
        self.total = total;
        self.waiting = waits_behind(item, number);
        self.lines = number;
        Ok(came)
    }

    /// The `run` line of these seconds at this speed, in km/h, comes.
    ///
    /// # Errors
    ///
    /// `TooLong` with the line's number where a limit is passed at it.
    pub fn take_run(&mut self, start: u32, seconds: u32, speed: u8) -> Result<(), TraceFault>
        requires lines { self.old.lines < 2 ^ 32 - 1 }
        requires later { self.old.start ≡ Second start }
        requires range { InRange (Driven seconds speed) }
        ensures ok { (lines : List (List ℕ)) (items : List Each) → HasCome lines items self.old
            → OnOk result (HasCome (lines ++ run_line seconds speed ∷ []) (items ++ Driven seconds speed ∷ [])
            self.new) }
        ensures fault { (lines behind : List (List ℕ)) (items : List Each) → HasCome lines items self.old
            → IfErr result (IsFaultOf self.old.form (lines ++ run_line seconds speed ∷ behind)) }
        ensures form { self.new.form ≡ self.old.form }
        ensures lines { OnOk result (self.new.lines ≡ self.old.lines + 1) }
    {
        let line = self.lines + 1;
        let total = one_behind(start, self.total, line, Item::Run { seconds, speed })?;
        self.total = total;
        self.waiting = None;
        self.lines = line;
        Ok(())
    }

    /// The seconds behind the item of a line, and behind the second that is put in before an `off`.
    fn total_behind(&self, start: u32, line: u32, item: Item) -> Result<u32, TraceFault>
        ensures ok { (placed : List (ℕ × Each)) → HasPassed start placed self.now.total
            → IfOk result (HasPassed start (placed ++ added self.now.waiting (line, item))) }
        ensures fault { (placed more : List (ℕ × Each)) → HasPassed start placed self.now.total
            → IfErr result (IsFaultAt start (placed ++ (added self.now.waiting (line, item) ++ more))) }
        ensures cause { IfErr result (λ fault. IsFailure fault → ⊥) }
    {
        if let Item::Off { .. } = item {
            let total = self.put_in_behind(start)?;
            return one_behind(start, total, line, item);
        }
        one_behind(start, self.total, line, item)
    }

    /// The seconds behind the second that is put in, where an action waits for one.
    fn put_in_behind(&self, start: u32) -> Result<u32, TraceFault>
        ensures ok { (placed : List (ℕ × Each)) → HasPassed start placed self.now.total
            → IfOk result (HasPassed start (placed ++ put_in self.now.waiting)) }
        ensures fault { (placed more : List (ℕ × Each)) → HasPassed start placed self.now.total
            → IfErr result (IsFaultAt start (placed ++ (put_in self.now.waiting ++ more))) }
        ensures cause { IfErr result (λ fault. IsFailure fault → ⊥) }
    {
        match self.waiting {
            None => Ok(self.total),
            Some(line) => one_behind(start, self.total, line, PUT_IN),
        }
    }

    /// No more line comes: the second that is put in, where no run follows the actions at the end.
    ///
    /// # Errors
    ///
    /// `BadLine` with the number behind the last line where no `start` line has come, `TooLong` with the line of the
    /// last action where a limit is passed by the second that is put in.
    pub fn end(&self) -> Result<Came, TraceFault>
        requires { self.now.lines < 2 ^ 32 - 1 }
        ensures ok { (lines : List (List ℕ)) (items : List Each) → HasCome lines items self.now
            → IfOk result (λ came. (start : ℕ) × (self.now.start ≡ Second start)
            × IsTraceOf self.now.form lines start (items ++ told came)) }
        ensures fault { (lines : List (List ℕ)) (items : List Each) → HasCome lines items self.now
            → IfErr result (IsFaultOf self.now.form lines) }
        ensures starts { IfOk result (λ came. StartsBy came self.now.start self.now.start) }
        ensures known { IfOk result (λ came. AllByRecursion (IsKnown self.now.form) (told came)) }
        ensures cause { IfErr result (λ fault. IsFailure fault → ⊥) }
    {
        let after_last = self.lines + 1;
        let Some(start) = self.start else {
            return Err(TraceFault::BadLine(after_last));
        };
        self.put_in_behind(start)?;
        match self.waiting {
            None => Ok(Came::Nothing),
            Some(_) => Ok(Came::Next(PUT_IN)),
        }
    }
}

/// What comes by an item, where an action waits before it.
fn came_of(waiting: Option<u32>, item: Item) -> Came
    ensures items { (line : ℕ) → told result ≡ items_of (added waiting (line, item)) }
    ensures some { (second : ℕ) → StartsBy result (Second second) (Second second) }
{
    match (item, waiting) {
        (Item::Off { .. }, Some(_)) => Came::Behind(item),
        _ => Came::Next(item),
    }
}

/// The seconds behind one more item, which counts to a line.
fn one_behind(start: u32, total: u32, line: u32, item: Item) -> Result<u32, TraceFault>
    ensures ok { (placed : List (ℕ × Each)) → HasPassed start placed total
        → IfOk result (HasPassed start (placed ++ (line, item) ∷ [])) }
    ensures fault { (placed more : List (ℕ × Each)) → HasPassed start placed total
        → IfErr result (IsFaultAt start (placed ++ ((line, item) ∷ more))) }
    ensures cause { IfErr result (λ fault. IsFailure fault → ⊥) }
{
    let seconds = seconds_of(item);
    if !fits(start, total, seconds) {
        return Err(TraceFault::TooLong(line));
    }
    Ok(total + seconds)
}

/// The seconds that an item spells.
fn seconds_of(item: Item) -> u32
    ensures { result ≡ item_seconds item }
{
    match item {
        Item::Run { seconds, speed: _ } => seconds,
        Item::Off { seconds } => seconds,
        Item::Act(_) => 0,
    }
}

/// The line of an item, where it is an action.
fn waits_behind(item: Item, line: u32) -> Option<u32>
    ensures { result ≡ waits (line, item) }
{
    match item {
        Item::Run { .. } | Item::Off { .. } => None,
        Item::Act(_) => Some(line),
    }
}

/// Whether so many more seconds are within the limits.
fn fits(start: u32, total: u32, seconds: u32) -> bool
    ensures { IsTrue result ↔ IsWithinLimits start (total + seconds) }
{
    let all = total as u64 + seconds as u64;
    all <= MOST as u64 && start as u64 + all <= LAST as u64 + 1
}
