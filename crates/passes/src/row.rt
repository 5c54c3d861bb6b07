//! A row that is long enough.
ghost use Rattle.std.specs.Prelude.{◌≡◌, ◌<◌, ◌≤◌, length, Some, IfOk, OnErr, slice_index_or};
ghost use Rattle.std.specs.List.{slice_get};
ghost use Rattle.refusal.specs.declared.refusals.Refusal.TheVariants.{RowTooShort as RowRefused};

use refusal::Refusal;

/// A row has fewer than 256 entries.
#[derive(Clone, Copy, PartialEq, Eq, Debug)]
pub struct RowTooShort;

impl From<RowTooShort> for Refusal {
    ghost from_gives = { λ _ refusal. refusal ≡ RowRefused };

    fn from(_: RowTooShort) -> Refusal {
        Refusal::RowTooShort
    }
}

/// A row that has an entry for each slot.
#[derive(Drop)]
pub struct Row<'a, T> {
    pub(crate) entries: &'a [T],
    ghost long: { 256 ≤ length entries.now },
}

impl<'a, T: Copy> Row<'a, T> {
    /// The row of these entries, if there is one for each slot.
    pub fn of(entries: &'a [T]) -> Result<Row<'a, T>, RowTooShort>
        ensures ok { IfOk result (λ r. r.entries ≡ entries.entry) }
        ensures err { OnErr result (length entries.now < 256) }
    {
        if entries.len() < 256 {
            return Err(RowTooShort);
        }
        Ok(Row { entries })
    }

    /// The entry of a slot.
    pub fn at(&self, slot: u8) -> T
        ensures entry { slice_get self.now.entries.now slot ≡ Some result }
        ensures instead { (d : T) → slice_index_or self.now.entries.now slot d ≡ result }
    {
        self.entries[slot as usize]
    }
}
