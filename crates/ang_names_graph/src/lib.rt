//! What leads to what in a graph over numbered places, by a table that is closed in place.
//!
//! The graph is a table of `n` rows of `n` entries, row by row: entry (i, j) is at `i * n + j`, and says
//! whether an edge leads from i to j. `ang_names` asks it what stands above a class or an interface, which
//! classes reach themselves, and for the rank by which counts of objects fall. It knows numbers alone.
#![tactic(auto)]

ghost use Rattle.std.specs.Prelude.{ℕ, Bool, true, false, length, ◌≡◌, ◌+◌, ◌*◌, ◌<◌, ◌≤◌, ◌⊎◌, ◌||◌, ◌↔◌, slice_index_or};
ghost use Rattle.ang_names_graph.specs.Graphs.{leads, through, IsWithin, Way, reach_of};
ghost use Rattle.ang_names_graph.specs.Tables.{Shows, at, edges_of};

pub mod laws;
mod making;
mod marked;
mod orders;

pub use making::{closed, first_of, push_joined_row, push_row, push_spread_row};
pub use orders::{above_of, after_first, has_edge, order_of, reach_of};

/// Closes a table of `n` rows and columns, 256 at most: entry (i, j) then says whether some way of one edge or
/// more leads from i to j. It takes no memory, and some `n`³ steps.
pub fn close(table: &mut [bool], n: usize)
    requires small { n ≤ 256 }
    requires size { length table.old ≡ n * n }
    ensures exact { Shows table.new n (leads (edges_of table.old n) n) }
    ensures ways { (i j : ℕ) → i < n → j < n →
        (at table.new n i j ≡ true) ↔ ((m : ℕ) × Way (edges_of table.old n) m i j) }
{
    for k in 0..n {
        pass(table, n, k);
    }
}

/// Puts the ways through place k in.
fn pass(table: &mut [bool], n: usize, k: usize)
    requires small { n ≤ 256 }
    requires there { k < n }
    requires size { length table.old ≡ n * n }
    ensures size { length table.new ≡ n * n }
    ensures exact { (f : ℕ → ℕ → Bool) → Shows table.old n f → Shows table.new n (through f k) }
{
    let row = row_of(n, k);
    for i in 0..n {
        let other = row_of(n, i);
        if i != k && table[other + k] {
            add_row(table, other, row, n);
        }
    }
}

/// Where a row begins.
fn row_of(n: usize, i: usize) -> usize
    requires small { n ≤ 256 }
    requires there { i < n }
    ensures exact { result ≡ i * n }
    ensures within { result + n ≤ n * n }
{
    i * n
}

/// Puts the entries of one row into another.
fn add_row(table: &mut [bool], to: usize, from: usize, n: usize)
    requires to { to + n ≤ length table.old }
    requires from { from + n ≤ length table.old }
    requires apart { (to + n ≤ from) ⊎ (from + n ≤ to) }
    ensures size { length table.new ≡ length table.old }
    ensures others { (p : ℕ) → (p < to) ⊎ (to + n ≤ p) →
        slice_index_or table.new p false ≡ slice_index_or table.old p false }
    ensures row { (j : ℕ) → j < n → slice_index_or table.new (to + j) false
        ≡ (slice_index_or table.old (to + j) false || slice_index_or table.old (from + j) false) }
{
    for j in 0..n {
        table[to + j] = table[to + j] | table[from + j];
    }
}
