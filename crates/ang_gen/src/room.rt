//! The room of a frame.
ghost use Rattle.std.specs.Prelude.{◌≡◌, ◌+◌, IfSome};
ghost use Rattle.ang_gen.specs.Code.{place_above};

/// The height of a frame when it grows by that many values, where it can be counted.
pub fn higher(height: usize, by: usize) -> Option<usize>
    ensures exact { IfSome result (λ n. n ≡ height + by) }
{
    height.checked_add(by)
}

/// The place of a local where `above` values stand above the locals. In a sound body no sum wraps: its frame
/// was counted.
#[tactic(auto, unfolding(crate::specs::Code::place_above))]
pub fn place_above(above: usize, local: usize) -> usize
    ensures exact { result ≡ place_above above local }
{
    above.wrapping_add(local)
}
