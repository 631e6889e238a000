//! An event as it is kept: without its caller's name and its arguments, which stand in lists of their own.
ghost use Rattle.std.specs.Prelude.{◌≡◌, ◌%◌, ◌^◌, ℕ, false, List};
ghost use Rattle.ang_kinds.specs.declared.value.Value.{Value};
ghost use Rattle.ang_host.specs.declared.answer.HostReply.TheVariants.{Making, Asking};
ghost use Rattle.ang_host.specs.declared.answer.Answer.TheVariants.{Gave};
ghost use Rattle.ang_host.specs.declared.event.HostEvent.TheVariants.{Called, Ended};
ghost use Rattle.ang_host.specs.Heads.{reply_in, object_in, is_end, event_with, IsWithin};

use crate::answer::{Answer, HostReply, Made};
use ang_kinds::{EntityNo, Value};

/// What sort of event it is.
#[derive(Clone, Copy)]
pub enum HeadKind {
    /// A host call of no object.
    Call,
    /// A host call of an object.
    ObjectCall,
    /// The end of an object.
    End,
}

/// What a driver answered. A key, a fault or a number stands beside it.
#[derive(Clone, Copy)]
pub enum ReplyKind {
    MadeKey,
    MadeNothing,
    MadeFault,
    MadeMemory,
    MadeFull,
    Void,
    Int,
    Uint,
    True,
    False,
    Null,
    Key,
    Fault,
    Memory,
    Full,
}

/// An event in 40 bytes.
#[derive(Clone, Copy)]
pub struct Head {
    /// Where its arguments begin in the list of all arguments.
    pub first: usize,
    /// The key of its object, and 0 where there is none.
    pub key: u64,
    /// What belongs to the kind of the reply.
    pub number: u64,
    pub entity: EntityNo,
    /// How many arguments there are.
    pub count: u32,
    /// The number of its caller's name.
    pub caller: u32,
    pub driver: u8,
    pub kind: HeadKind,
    pub reply: ReplyKind,
}

const _: () = prove!(size_of::<Head>() == 40);

const _: () = prove!(size_of::<Head>() + 2 * size_of::<Value>() == 88);

/// A reply as it is kept.
#[inline(always)]
pub fn reply_parts(reply: HostReply) -> (ReplyKind, u64)
    ensures exact { reply_in result.0 result.1 ≡ reply }
{
    match reply {
        HostReply::Making(made) => made_parts(made),
        HostReply::Asking(answer) => answer_parts(answer),
    }
}

#[inline(always)]
fn made_parts(made: Made) -> (ReplyKind, u64)
    ensures exact { reply_in result.0 result.1 ≡ Making made }
{
    match made {
        Made::Key(key) => (ReplyKind::MadeKey, key),
        Made::Nothing => (ReplyKind::MadeNothing, 0),
        Made::Fault(n) => (ReplyKind::MadeFault, u64::from(n)),
        Made::Memory => (ReplyKind::MadeMemory, 0),
        Made::Full => (ReplyKind::MadeFull, 0),
    }
}

#[inline(always)]
fn answer_parts(answer: Answer) -> (ReplyKind, u64)
    ensures exact { reply_in result.0 result.1 ≡ Asking answer }
{
    match answer {
        Answer::Void => (ReplyKind::Void, 0),
        Answer::Gave(value) => value_parts(value),
        Answer::Fault(n) => (ReplyKind::Fault, u64::from(n)),
        Answer::Memory => (ReplyKind::Memory, 0),
        Answer::Full => (ReplyKind::Full, 0),
    }
}

#[inline(always)]
fn value_parts(value: Value) -> (ReplyKind, u64)
    ensures exact { reply_in result.0 result.1 ≡ Asking (Gave value) }
{
    match value {
        Value::Int(n) => (ReplyKind::Int, n.cast_unsigned()),
        Value::Uint(n) => (ReplyKind::Uint, n),
        Value::Bool(true) => (ReplyKind::True, 0),
        Value::Bool(false) => (ReplyKind::False, 0),
        Value::Key(None) => (ReplyKind::Null, 0),
        Value::Key(Some(key)) => (ReplyKind::Key, key),
    }
}

/// The reply that is kept so.
pub fn reply_from(kind: ReplyKind, number: u64) -> HostReply
    ensures exact { result ≡ reply_in kind number }
{
    match kind {
        ReplyKind::MadeKey => HostReply::Making(Made::Key(number)),
        ReplyKind::MadeNothing => HostReply::Making(Made::Nothing),
        ReplyKind::MadeFault => HostReply::Making(Made::Fault(low_half(number))),
        ReplyKind::MadeMemory => HostReply::Making(Made::Memory),
        ReplyKind::MadeFull => HostReply::Making(Made::Full),
        ReplyKind::Void => HostReply::Asking(Answer::Void),
        ReplyKind::Int => HostReply::Asking(Answer::Gave(Value::Int(number.cast_signed()))),
        ReplyKind::Uint => HostReply::Asking(Answer::Gave(Value::Uint(number))),
        ReplyKind::True => HostReply::Asking(Answer::Gave(Value::Bool(true))),
        ReplyKind::False => HostReply::Asking(Answer::Gave(Value::Bool(false))),
        ReplyKind::Null => HostReply::Asking(Answer::Gave(Value::Key(None))),
        ReplyKind::Key => HostReply::Asking(Answer::Gave(Value::Key(Some(number)))),
        ReplyKind::Fault => HostReply::Asking(Answer::Fault(low_half(number))),
        ReplyKind::Memory => HostReply::Asking(Answer::Memory),
        ReplyKind::Full => HostReply::Asking(Answer::Full),
    }
}

fn low_half(number: u64) -> u32
    ensures exact { result ≡ number % 2 ^ 32 }
{
    (number % 0x1_0000_0000) as u32
}

impl Head {
    /// The head of a host call, which says nothing of its caller's name and its arguments.
    #[inline(always)]
    pub fn of_call(entity: EntityNo, driver: u8, object: Option<u64>, reply: HostReply) -> Head
        ensures call { is_end result.kind ≡ false }
        ensures exact { (caller : List ℕ) (args : List Value)
            → event_with (is_end result.kind) result caller args
            ≡ Called caller entity driver object args reply }
    {
        let (answered, number) = reply_parts(reply);
        let (kind, key) = match object {
            Some(key) => (HeadKind::ObjectCall, key),
            None => (HeadKind::Call, 0),
        };
        Head {
            first: 0,
            key,
            number,
            entity,
            count: 0,
            caller: 0,
            driver,
            kind,
            reply: answered,
        }
    }

    /// The head of the end of an object.
    pub fn of_end(driver: u8, key: u64) -> Head
        ensures exact { (caller : List ℕ) (args : List Value)
            → event_with (is_end result.kind) result caller args ≡ Ended driver key }
        ensures within { (names values : ℕ) → IsWithin names values result }
    {
        Head {
            first: 0,
            key,
            number: 0,
            entity: EntityNo(0),
            count: 0,
            caller: 0,
            driver,
            kind: HeadKind::End,
            reply: ReplyKind::Void,
        }
    }

    /// The key of its object, if any.
    pub fn object(&self) -> Option<u64>
        ensures exact { result ≡ object_in self.now.kind self.now.key }
    {
        match self.kind {
            HeadKind::ObjectCall => Some(self.key),
            HeadKind::Call => None,
            HeadKind::End => None,
        }
    }

    /// Whether it is the end of an object.
    pub fn is_end(&self) -> bool
        ensures exact { result ≡ is_end self.now.kind }
    {
        match self.kind {
            HeadKind::End => true,
            HeadKind::Call => false,
            HeadKind::ObjectCall => false,
        }
    }
}
