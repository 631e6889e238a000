//! All entries that win by the verdicts of a use, at once.
ghost use Rattle.std.specs.Prelude.{◌≡◌, ◌==◌, ◌&&◌, ◌||◌, ℕ, List, false, length};
ghost use Rattle.ang_names_known.specs.Kinds.{Rows};
ghost use Rattle.ang_names_known.specs.KindRows.{row_at};
ghost use Rattle.ang_check_added.specs.Sets as spec;
ghost use Rattle.ang_check_added.specs.Verdicts.{verdict_at, verdicts_in, wins_by};

use crate::kind_sets::{KindSets, entries_of, sets_at};
use crate::sets::EntrySet;
use crate::verdicts::{BELOW, LOST, Verdicts, verdict_of_kind};

/// What is known of all entries by the verdicts so far.
#[derive(Drop)]
struct Standings {
    /// Those that are lost by one of them.
    lost: EntrySet,
    /// Those that are ahead by one of them, or without that.
    ahead: EntrySet,
}

impl Standings {
    /// By the verdict on one kind more, of which these entries are.
    #[inline(always)]
    fn judge_kind(&mut self, verdict: u8, set: &Option<EntrySet>)
        ensures lost { (n : ℕ) → spec.has self.new.lost.words n
            ≡ (spec.has self.old.lost.words n || ((verdict == 2) && spec.in_set set.now n)) }
        ensures ahead { (n : ℕ) → spec.has self.new.ahead.words n
            ≡ (spec.has self.old.ahead.words n || ((verdict == 1) && spec.in_set set.now n)) }
    {
        match set {
            None => {}
            Some(entries) => {
                if verdict == LOST {
                    self.lost.add(entries);
                } else if verdict == BELOW {
                    self.ahead.add(entries);
                }
            }
        }
    }

    /// By the verdicts on the kinds at one place more, of which each has its set.
    fn judge_place(&mut self, verdicts: &[u8], sets: &[Option<EntrySet>])
        ensures lost { (k n : ℕ) → spec.IsOnlyIn sets.now k n → spec.has self.new.lost.words n
            ≡ (spec.has self.old.lost.words n || (verdict_at verdicts.now k == 2)) }
        ensures ahead { (k n : ℕ) → spec.IsOnlyIn sets.now k n → spec.has self.new.ahead.words n
            ≡ (spec.has self.old.ahead.words n || (verdict_at verdicts.now k == 1)) }
    {
        for kind in 0..sets.len() {
            self.judge_kind(verdict_of_kind(verdicts, kind), &sets[kind]);
        }
    }
}

/// The entries that are ahead without any verdict.
fn ahead_at_first(among: &EntrySet, is_ahead: bool) -> EntrySet
    ensures exact { (n : ℕ) → spec.has result.words n
        ≡ (is_ahead && spec.has among.now.words n) }
{
    if is_ahead { *among } else { EntrySet::empty() }
}

/// The entries that win, among those with a parameter for each argument.
fn winners_among(
    rows: &[Vec<u8>],
    places: &[Vec<Option<EntrySet>>],
    among: &EntrySet,
    is_ahead: bool,
) -> EntrySet
    ensures exact { (n : ℕ) (ns : List ℕ) → spec.StandsBy places.now ns n →
        spec.has among.now.words n ≡ (length ns == length rows.now) →
        spec.has result.words n ≡ wins_by (verdicts_in rows.now) ns is_ahead }
    ensures none { (n : ℕ) → spec.has among.now.words n ≡ false →
        spec.has result.words n ≡ false }
{
    let mut standings = Standings {
        lost: EntrySet::empty(),
        ahead: ahead_at_first(among, is_ahead),
    };
    for place in 0..rows.len() {
        standings.judge_place(rows[place].as_slice(), sets_at(places, place));
    }
    among.chosen(&standings.lost, &standings.ahead)
}

impl Verdicts {
    /// The entries that win, of those of which there are these sets: of each one whether it does, as `wins` has it by its row.
    /// It takes no memory.
    pub fn winners(&self, sets: &KindSets) -> EntrySet
        ensures exact { (rows : Rows) → spec.AreSets rows sets.now → (n : ℕ) →
            spec.has result.words n
            ≡ spec.is_winner (verdicts_in self.now.rows.items) self.now.ahead (row_at rows n) }
    {
        let rows = self.rows.as_slice();
        let counts = sets.counts.as_slice();
        let places = sets.places.as_slice();
        let among = entries_of(counts, rows.len());
        winners_among(rows, places, &among, self.ahead)
    }
}
