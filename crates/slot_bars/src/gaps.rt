//! The gaps of a file, in an order in which the one that a minute lies in is found by a search.
ghost use Rattle.std.specs.Prelude.{◌≡◌, ◌-◌, ◌≤◌, ◌<◌, ℕ, [], IfOk, length, slice_index_or};
ghost use Rattle.view_model.specs.declared.marks.Gap.{Gap as FileGap};
ghost use Rattle.slot_bars.specs.Seeing.{is_in_gap};
ghost use Rattle.slot_bars.specs.Gaps.{AreInOrder, AreSameGaps, prolonged};

use std::alloc::{AllocError, Global};
use std::marker::Model;
use view_model::Gap;

/// Gaps of which each begins and ends no earlier than the one before it.
#[derive(Drop)]
pub struct Gaps {
    gaps: Vec<Gap>,
}

impl Model for Gaps {
    ghost use Rattle.std.specs.Prelude.{List};
    ghost use Rattle.view_model.specs.declared.marks.Gap.{Gap};
    ghost use Rattle.slot_bars.specs.Gaps.{AreInOrder};

    ghost Value = { List Gap };

    ghost view = { λ g. g.gaps.items };

    ghost invariant = { λ g. AreInOrder g.gaps.items };
}

impl Gaps {
    /// No gap.
    pub fn none(alloc: Global) -> Gaps
        ensures { result ≡ [] }
    {
        Gaps {
            gaps: Vec::new(alloc),
        }
    }

    /// Gaps in which the same minutes lie as in these: these by their begins, each as long as the longest before it.
    ///
    /// # Errors
    ///
    /// `AllocError` where memory runs out.
    pub fn of(alloc: Global, gaps: &[Gap]) -> Result<Gaps, AllocError>
        ensures { IfOk result (λ ordered. AreSameGaps ordered gaps.now) }
    {
        let mut by_begin = Vec::from_slice(alloc, gaps)?;
        by_begin.sort_by_key(|gap| gap.first)?;
        let gaps = prolonged(alloc, by_begin.as_slice())?;
        Ok(Gaps { gaps })
    }

    /// Whether a minute lies in one.
    pub(crate) fn is_in(&self, minute: u32) -> bool
        ensures { result ≡ is_in_gap self.now minute }
    {
        minute < self.end_before(self.begun(minute))
    }

    /// The last of the minutes in a row, from one on, that lie in a gap as it does, or in none.
    pub(crate) fn last_alike(&self, minute: u32) -> u32
        ensures least { minute ≤ result }
        ensures alike { (m : ℕ) → minute ≤ m → m ≤ result → is_in_gap self.now m ≡ is_in_gap self.now minute }
    {
        let count = self.begun(minute);
        let end = self.end_before(count);
        if minute < end {
            return end - 1;
        }
        if count < self.gaps.len() {
            return self.gaps[count].first - 1;
        }
        u32::MAX
    }

    /// The minute behind the last of so many, 0 where there is none.
    fn end_before(&self, count: usize) -> u32
        requires { count ≤ length self.now }
        ensures last { (d : FileGap) → 0 < count → result ≡ (slice_index_or self.now (count - 1) d).behind }
        ensures none { count ≡ 0 → result ≡ 0 }
    {
        if count == 0 {
            return 0;
        }
        self.gaps[count - 1].behind
    }

    /// How many begin no later than a minute.
    fn begun(&self, minute: u32) -> usize
        ensures order { AreInOrder self.now }
        ensures most { result ≤ length self.now }
        ensures front { (k : ℕ) (d : FileGap) → k < result → (slice_index_or self.now k d).first ≤ minute }
        ensures behind { (k : ℕ) (d : FileGap) → result ≤ k → k < length self.now
            → minute < (slice_index_or self.now k d).first }
    {
        self.gaps
            .as_slice()
            .partition_point(|gap| gap.first <= minute)
    }
}

/// Gaps each of which ends no earlier than those before it.
fn prolonged(alloc: Global, gaps: &[Gap]) -> Result<Vec<Gap>, AllocError>
    ensures { IfOk result (λ longer. longer.items ≡ prolonged 0 gaps.now) }
{
    let mut longer = Vec::new(alloc);
    let mut behind = 0;
    for gap in gaps {
        behind = gap.behind.max(behind);
        longer.push(Gap {
            first: gap.first,
            behind,
        })?;
    }
    Ok(longer)
}
