//! What is kept of an event, as it is lent, and its arguments as they are added.
ghost use Rattle.std.specs.Prelude.{◌≡◌, ◌+◌, ◌≤◌, ◌++◌, length, vec_len, vec_capacity};
ghost use Rattle.ang_host.specs.Heads.{event_at, IsWithin};
ghost use Rattle.ang_host.specs.Lent.{event_of};

use crate::event_ref::EventRef;
use crate::head::{Head, reply_from};
use ang_kinds::{List, Value};

/// The event of a head, with its caller's name and its arguments where these stand.
pub fn event_lent<'a>(head: &Head, names: &'a [List<u8>], values: &'a [Value]) -> EventRef<'a>
    requires within { IsWithin (length names.now) (length values.now) head.now }
    ensures exact { event_of result ≡ event_at names.now values.now head.now }
{
    let driver = u32::from(head.driver);
    if head.is_end() {
        return EventRef::Ended {
            driver,
            key: head.key,
        };
    }
    let after = &values[head.first..];
    EventRef::Called {
        caller: names[head.caller as usize].as_slice(),
        entity: head.entity,
        driver,
        object: head.object(),
        args: &after[..head.count as usize],
        reply: reply_from(head.reply, head.number),
    }
}

/// Adds the arguments of a call, for which there is room.
#[inline(always)]
pub fn append_reserved(values: &mut Vec<Value>, args: &[Value])
    requires room { vec_len values.old + length args.now ≤ vec_capacity values.old }
    ensures items { values.new.items ≡ values.old.items ++ args.now }
{
    for value in args.iter() {
        values.push_reserved(*value);
    }
}
