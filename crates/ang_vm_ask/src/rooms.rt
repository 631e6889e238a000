//! Room for what a host call lists, all of which is taken before the driver is asked.
ghost use Rattle.std.specs.Prelude.{◌≡◌, ◌+◌, ◌<◌, ◌≤◌, ◌↔◌, IsTrue, OnOk};
ghost use Rattle.ang_host.specs.Logs.{listed_in, is_heard, log_len, log_capacity, HasRoomForCall};

use ang_host::EventBuffer;
use std::alloc::AllocError;

/// Whether there may be one event more, and then `ends` more.
#[inline(always)]
fn is_within(count: usize, ends: usize, most: usize) -> bool
    ensures exact { IsTrue result ↔ (count + ends < most) }
{
    count < most && ends < most - count
}

/// Room for a host call by `caller` with `count` arguments, and then for the ends of `ends` objects, where that is no
/// more than `most` events in all.
///
/// # Errors
/// There is no memory, or there would be too many events. The room that there is by then stays.
#[inline(always)]
pub(crate) fn room_for_call(
    events: &mut EventBuffer,
    most: usize,
    ends: usize,
    caller: &[u8],
    count: usize,
) -> Result<(), AllocError>
    ensures events { listed_in events.new ≡ listed_in events.old }
    ensures len { log_len events.new ≡ log_len events.old }
    ensures capacity { log_capacity events.old ≤ log_capacity events.new }
    ensures heard { is_heard events.new ≡ is_heard events.old }
    ensures room { OnOk result (log_len events.new + ends < log_capacity events.new) }
    ensures within { OnOk result (log_len events.new + ends < most) }
    ensures call { OnOk result (HasRoomForCall caller.now count events.new) }
{
    if !is_within(events.len(), ends, most) {
        return Err(AllocError);
    }
    events.reserve_call(ends + 1, caller, count)
}

/// Room for the ends of `count` objects.
pub(crate) fn room_for_ends(ends: &mut EventBuffer, count: usize) -> Result<(), AllocError>
    ensures events { listed_in ends.new ≡ listed_in ends.old }
    ensures len { log_len ends.new ≡ log_len ends.old }
    ensures capacity { log_capacity ends.old ≤ log_capacity ends.new }
    ensures room { OnOk result (log_len ends.new + count ≤ log_capacity ends.new) }
{
    ends.reserve(count)?;
    Ok(())
}
