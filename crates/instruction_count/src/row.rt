ghost use Rattle.std.specs.Prelude.{◌≡◌, ◌+◌, ◌<◌, ◌^◌, ◌++◌, ◌∷◌, [], ℕ, List, length, not};
ghost use Rattle.elf_image.specs.declared.image.Image.{Image};
ghost use Rattle.insight_model.specs.Count.{Executed as ModelExecuted};
ghost use Rattle.insight_model.specs.Profile.{goes_on, row_of};
ghost use Rattle.instruction_count.specs.Counted.{IsCountRow, Tells, has_some};

use fsim_base::wrap_add;
use func_model::Executed;

/// Whether another instruction than that of the next word comes after this one.
fn is_taken(executed: &Executed) -> bool
    ensures taken { result ≡ not (goes_on executed.now.addr executed.now.next) }
{
    executed.next != wrap_add(executed.addr, 4)
}

/// What was counted of the instructions of a row.
#[derive(Clone, Copy, Debug, PartialEq, Eq)]
pub(crate) struct CountRow {
    /// The word of the last of them.
    pub word: u32,
    /// How many retired, and how many trapped.
    pub retired: u64,
    pub trapped: u64,
    /// How many retired and weren't followed by the next word.
    pub taken: u64,
}

impl CountRow {
    /// Nothing was counted.
    pub(crate) fn new() -> CountRow
        ensures nothing { (image : Image) (row : ℕ) → IsCountRow image [] row result }
    {
        CountRow {
            word: 0,
            retired: 0,
            trapped: 0,
            taken: 0,
        }
    }

    /// Counts an instruction of the row.
    pub(crate) fn note(&mut self, executed: &Executed)
        ensures noted { (image : Image) (run : List ModelExecuted) (x : ModelExecuted)
            → length run < 2 ^ 63 → Tells executed.now x
            → IsCountRow image run (row_of image x.addr) self.old
            → IsCountRow image (run ++ x ∷ []) (row_of image x.addr) self.new }
    {
        self.word = executed.word;
        if executed.has_trapped {
            self.trapped = self.trapped.saturating_add(1);
            return;
        }
        self.retired = self.retired.saturating_add(1);
        if is_taken(executed) {
            self.taken = self.taken.saturating_add(1);
        }
    }

    /// Whether an instruction was counted.
    pub(crate) fn is_some(&self) -> bool
        ensures some { result ≡ has_some self.now }
    {
        self.retired > 0 || self.trapped > 0
    }
}
