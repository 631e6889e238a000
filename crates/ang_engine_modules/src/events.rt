//! The events of a command.
ghost use Rattle.std.specs.Prelude.{◌≡◌, []};
ghost use Rattle.ang_host.specs.Logs.{listed_in, is_heard};

use ang_host::EventBuffer;
use std::alloc::Global;

/// No events yet, which can be read afterwards or are counted alone.
pub fn no_events(alloc: Global, heard: bool) -> EventBuffer
    ensures empty { listed_in result ≡ [] }
    ensures heard { is_heard result ≡ heard }
{
    if heard {
        EventBuffer::new(alloc)
    } else {
        EventBuffer::unheard(alloc)
    }
}
