//! The budget of a command line.
ghost use Rattle.std.specs.Prelude.{◌≡◌, ◌≤◌, IfSome, option_map};
ghost use Rattle.asrun_lines.specs.Budget.{budget_given};

use crate::fields::decimal;

/// The most ticks that a command line may give.
const MOST_TICKS: u64 = 2_147_483_647;

/// The ticks where it gives none.
const DEFAULT_TICKS: u64 = 1_000_000;

/// The ticks that each command may take: what a command line gives, or 1,000,000 where it gives nothing. None where that is
/// no number from 1 to 2,147,483,647.
#[tactic(auto, unfolding(crate::specs::Budget::budget_given))]
pub fn budget_of(text: Option<&str>) -> Option<u64>
    ensures exact { result ≡ budget_given (option_map (λ s. s.now) text.entry) }
    ensures least { IfSome result (λ n. 1 ≤ n) }
    ensures most { IfSome result (λ n. n ≤ 2147483647) }
{
    let Some(text) = text else {
        return Some(DEFAULT_TICKS);
    };
    let ticks = decimal(text.as_bytes(), 10)?;
    if 1 <= ticks && ticks <= MOST_TICKS {
        Some(ticks)
    } else {
        None
    }
}
