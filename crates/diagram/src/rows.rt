//! One entry of a lent row.
ghost use Rattle.std.specs.Prelude.{◌≡◌, ℕ, ◌≤◌, length, Some, slice_index_or};
ghost use Rattle.std.specs.List.{slice_get};
ghost use Rattle.passes.specs.Rows.{put};

// Sets the entry of a slot.
pub(crate) fn write<T: Copy>(row: &mut [T], slot: u8, entry: T)
    requires { 256 ≤ length row.old }
    ensures entry { (s : ℕ) → slice_get row.new s ≡ put (slice_get row.old) slot (Some entry) s }
    ensures instead { (d : T) (s : ℕ) → slice_index_or row.new s d ≡ put (λ k. slice_index_or row.old k d) slot entry s }
{
    row[slot as usize] = entry;
}
