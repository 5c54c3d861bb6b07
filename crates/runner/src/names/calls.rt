//! Finding names and keeping them.
ghost use Rattle.std.specs.Prelude.{◌≡◌, ℕ, ◌%◌, ◌≤◌, true, [], length, Some, None, MatchOption};
ghost use Rattle.std.specs.Str.{bytes_eq};
ghost use Rattle.passes.specs.Rows.{put};
ghost use Rattle.diagram.specs.Chart.{names};
ghost use Rattle.diagram.specs.View.{chart};
ghost use Rattle.runner.specs.Book.{in_use, lowest, found};
ghost use Rattle.runner.specs.View.{name_in, book, Lowest};

use crate::names::{Entry, Names};
use diagram::Diagram;
use family::{Family, is_word};

impl Entry {
    // An entry of a name.
    fn of(name: &[u8], handle: u32) -> Entry
        requires { length name.now ≤ 12 }
        ensures name { name_in result ≡ name.now }
        ensures handle { result.handle ≡ handle }
    {
        let mut bytes = [0; 12];
        bytes[..name.len()].copy_from_slice(name);
        Entry {
            bytes,
            size: name.len(),
            handle,
        }
    }

    // Whether the entry is of a name.
    fn is_of(&self, name: &[u8]) -> bool
        ensures { result ≡ bytes_eq (name_in self.now) name.now }
    {
        is_word(&self.bytes[..self.size], name)
    }
}

impl Names {
    /// No names.
    pub fn empty() -> Names
        ensures { (s : ℕ) → ((book result).name s ≡ []) × ((book result).handle s ≡ 0) }
    {
        Names::of_blank(Entry::of(&[], 0))
    }

    // An entry with no name, at each slot.
    fn of_blank(entry: Entry) -> Names
        requires name { name_in entry ≡ [] }
        requires handle { entry.handle ≡ 0 }
        ensures { (s : ℕ) → ((book result).name s ≡ []) × ((book result).handle s ≡ 0) }
    {
        Names {
            entries: [entry; 256],
        }
    }

    /// The handle of the placed block of this name.
    #[tactic(auto, unfolding(crate::specs::Book::found))]
    pub fn find<F: Family>(&self, diagram: &Diagram<F>, name: &[u8]) -> Option<u32>
        ensures found { result ≡ found (chart diagram.now) (book self.now) name.now }
        ensures placed { (h : ℕ) → result ≡ Some h → names (chart diagram.now) h ≡ true }
    {
        self.lowest(diagram, name).map(|entry| entry.handle)
    }

    // The entry of the lowest slot with this name in use.
    fn lowest<F: Family>(&self, diagram: &Diagram<F>, name: &[u8]) -> Option<&Entry>
        ensures { MatchOption result (lowest (in_use (chart diagram.now) (book self.now) name.now) 256 ≡ None) (λ e. Lowest (chart diagram.now) self.now name.now e.now) }
    {
        self.entries.iter().find(|entry| entry.is_of(name) && diagram.is_placed(entry.handle))
    }

    // Keeps the name of a block at its handle's slot.
    pub(crate) fn keep(&mut self, handle: u32, name: &[u8])
        requires { length name.now ≤ 12 }
        ensures name { (s : ℕ) → (book self.new).name s ≡ put (book self.old).name (handle % 256) name.now s }
        ensures handle { (s : ℕ) → (book self.new).handle s ≡ put (book self.old).handle (handle % 256) handle s }
    {
        self.entries[(handle % 256) as usize] = Entry::of(name, handle);
    }
}
