//! The loops over the table by rank: ranks dealt out again, and a gap closed.
ghost use Rattle.std.specs.Prelude.{◌≡◌, ℕ, ◌+◌, ◌<◌, ◌≤◌, true, false, length, ◌≢◌, slice_index, slice_index_or};
ghost use Rattle.wiring.specs.Pass.{marked, redealt, segment};
ghost use Rattle.wiring.specs.Sound.{live_of, rank_in};

// Deals the ranks from `from` to `to` out again in one pass, to the unmarked
// slots from `low` on and to the marked ones from `high` on.
pub(crate) fn redeal(
    order: &mut [u8; 256],
    rank: &mut [Option<u8>; 256],
    marks: &[bool; 256],
    from: usize,
    to: usize,
    mut low: usize,
    mut high: usize,
)
    requires ends { (from ≤ to) × (to ≤ 256) }
    requires low { low ≡ from }
    requires high { high ≡ from + length (marked marks.now false (segment order.old from to)) }
    requires live { (i : ℕ) → from ≤ i → i < to → slice_index_or (live_of rank.old) (slice_index order.old i) false ≡ true }
    requires ranked { (i : ℕ) → from ≤ i → i < to → slice_index (rank_in rank.old) (slice_index order.old i) ≡ i }
    ensures size { length order.new ≡ 256 }
    ensures live { live_of rank.new ≡ live_of rank.old }
    ensures order { order.new ≡ redealt order.old marks.now from to }
    ensures here { (i : ℕ) → from ≤ i → i < to → slice_index (rank_in rank.new) (slice_index order.new i) ≡ i }
    ensures other { (s : ℕ) → ((i : ℕ) → from ≤ i → i < to → slice_index order.new i ≢ s) → slice_index (rank_in rank.new) s ≡ slice_index (rank_in rank.old) s }
{
    let was = *order;
    for &slot in &was[from..to] {
        if marks[slot as usize] {
            order[high] = slot;
            rank[slot as usize] = Some(high as u8);
            high += 1;
        } else {
            order[low] = slot;
            rank[slot as usize] = Some(low as u8);
            low += 1;
        }
    }
}

// Moves what stands above `from`, up to `last`, one rank down.
pub(crate) fn close_up(
    order: &mut [u8; 256],
    rank: &mut [Option<u8>; 256],
    from: usize,
    last: usize,
)
    requires ends { (from ≤ last) × (last < 256) }
    requires live { (i : ℕ) → from ≤ i → i ≤ last → slice_index_or (live_of rank.old) (slice_index order.old i) false ≡ true }
    requires ranked { (i : ℕ) → from ≤ i → i ≤ last → slice_index (rank_in rank.old) (slice_index order.old i) ≡ i }
    ensures size { length order.new ≡ 256 }
    ensures live { live_of rank.new ≡ live_of rank.old }
    ensures low { (i : ℕ) → i < from → slice_index order.new i ≡ slice_index order.old i }
    ensures mid { (i : ℕ) → from ≤ i → i < last → slice_index order.new i ≡ slice_index order.old (i + 1) }
    ensures here { (i : ℕ) → from ≤ i → i < last → slice_index (rank_in rank.new) (slice_index order.old (i + 1)) ≡ i }
    ensures other { (s : ℕ) → ((i : ℕ) → from ≤ i → i < last → slice_index order.old (i + 1) ≢ s) → slice_index (rank_in rank.new) s ≡ slice_index (rank_in rank.old) s }
{
    order.copy_within(from + 1..last + 1, from);
    for (i, &slot) in order[from..last].iter().enumerate() {
        rank[slot as usize] = Some((from + i) as u8);
    }
}
