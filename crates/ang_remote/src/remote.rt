//! The driver whose host is another process.
ghost use Rattle.std.specs.Prelude.{◌≡◌, ◌<◌};
ghost use Rattle.ang_remote.specs.Asks.{is_posted_call, line_text};
ghost use Rattle.ang_remote.specs.KeysLedger.{ledger};
ghost use Rattle.ang_remote.specs.declared.answers.Said.TheVariants as saying;
ghost use Rattle.ang_remote.specs.Wires.{IsExchanged, MakesKey, answer_of, given_of, fresh_state};

use crate::answers::{KEY_LIVE, NOT_LIVE, OTHER_KIND, Said};
use crate::asks::{AskKind, is_posted_call};
use crate::exchange::exchange;
use crate::keys::Keys;
use crate::short_line::FEW;
use ang_host::{Answer, Driver, Made};
use ang_kinds::Value;
use std::alloc::Global;
use std::io::{Read, Write};

/// A driver whose host reads its asks from a writer, and writes its answers to a reader (docs/FORMATS.md, "The
/// conversation of asremote").
///
/// Each host call is one line that is written and one that is read. A function that is posted has no answer: its line is
/// written alone, before that of what is asked next. The references to live keys are kept here, so
/// nothing is written where one is added or released. What can't be taken for an answer is a fault of one of the
/// numbers 4294967280 to 4294967286, which hosts don't use themselves. Its core is the driver's number, the functions
/// that it is posted, the live keys, and what is known of the bytes that the writer holds and the reader has left.
#[derive(Drop)]
pub struct Remote<R: Drop, W: Drop> {
    alloc: Global,
    number: u32,
    posted: Vec<u32>,
    reader: R,
    writer: W,
    keys: Keys,
}

impl<R: Read + Drop, W: Write + Drop> Remote<R, W> {
    ghost use Rattle.ang_remote.specs.RemoteState.{state_of};

    /// A driver of this number, without objects, that was never asked. `posted` are the numbers of the functions whose calls
    /// are posted; they are looked for from the first on, so they should be few.
    pub fn new(alloc: Global, number: u32, posted: Vec<u32>, reader: R, writer: W) -> Remote<R, W>
        ensures fresh { state_of R.remaining W.contents result
            ≡ fresh_state number posted.items (W.contents writer) (R.remaining reader) }
    {
        Remote {
            alloc,
            number,
            posted,
            reader,
            writer,
            keys: Keys::new(alloc),
        }
    }

    // Whether a call is posted.
    #[inline(always)]
    fn posts(&self, f: u32, object: Option<u64>) -> bool
        ensures exact { result ≡ is_posted_call self.now.posted.items f object }
    {
        is_posted_call(&self.posted, f, object)
    }

    // Asks or posts, and gives what is said.
    #[inline(always)]
    fn ask(
        &mut self,
        posted: bool,
        kind: AskKind,
        f: u32,
        object: Option<u64>,
        values: &[Value],
    ) -> Said
        ensures keys { self.new.keys ≡ self.old.keys }
        ensures number { self.new.number ≡ self.old.number }
        ensures posted { self.new.posted ≡ self.old.posted }
        ensures exchanged { IsExchanged
            (line_text posted self.old.number kind f object values.now)
            (W.contents self.old.writer) (W.contents self.new.writer)
            (R.remaining self.old.reader) (R.remaining self.new.reader) result posted }
    {
        exchange(
            self.alloc,
            &mut self.reader,
            &mut self.writer,
            posted,
            self.number,
            kind,
            f,
            object,
            values,
        )
    }
}

// The answer with this value, where these keys are live.
fn given(keys: &Keys, value: Value) -> Answer
    ensures exact { result ≡ given_of (ledger keys.now).live value }
{
    match value {
        Value::Key(Some(key)) => {
            if keys.is_live(key) {
                Answer::Gave(value)
            } else {
                Answer::Fault(NOT_LIVE)
            }
        }
        Value::Key(None) | Value::Int(_) | Value::Uint(_) | Value::Bool(_) => Answer::Gave(value),
    }
}

// The answer to a call, a read or a write that is said, where these keys are live.
#[inline(always)]
fn answer(keys: &Keys, said: Said) -> Answer
    ensures exact { result ≡ answer_of (ledger keys.now).live said }
{
    match said {
        Said::Void => Answer::Void,
        Said::Gave(value) => given(keys, value),
        Said::Made(_) | Said::Nothing => Answer::Fault(OTHER_KIND),
        Said::Fault(number) => Answer::Fault(number),
        Said::Memory => Answer::Memory,
    }
}

// Makes a key live, if it is not.
fn made_key(keys: &mut Keys, key: u64) -> Made
    requires asking_left { (ledger keys.old).tally.made < (ledger keys.old).tally.asked }
    ensures made { MakesKey (ledger keys.old) (saying.Made key) result (ledger keys.new) }
{
    if keys.is_live(key) {
        return Made::Fault(KEY_LIVE);
    }
    match keys.insert(key) {
        Ok(()) => Made::Key(key),
        Err(_) => Made::Memory,
    }
}

// The answer to a making that is said, where these keys are live. A key that is made becomes live.
fn made(keys: &mut Keys, said: Said) -> Made
    requires asking_left { (ledger keys.old).tally.made < (ledger keys.old).tally.asked }
    ensures made { MakesKey (ledger keys.old) said result (ledger keys.new) }
{
    match said {
        Said::Made(key) => made_key(keys, key),
        Said::Nothing => Made::Nothing,
        Said::Void | Said::Gave(_) => Made::Fault(OTHER_KIND),
        Said::Fault(number) => Made::Fault(number),
        Said::Memory => Made::Memory,
    }
}

impl<R: Read + Drop, W: Write + Drop> Driver for Remote<R, W> {
    ghost use Rattle.ang_remote.specs.Wires.{RemoteFits};
    ghost use Rattle.ang_remote.specs.RemoteState.{state_of};

    ghost meaning = { record { state = state_of R.remaining W.contents; fits = RemoteFits } };

    fn idle(&self) -> bool {
        self.keys.is_empty()
    }

    fn make(&mut self, f: u32, args: &[Value]) -> Made {
        if !self.keys.ask() {
            return Made::Full;
        }
        let said = self.ask(false, AskKind::Make, f, None, args);
        made(&mut self.keys, said)
    }

    fn call(&mut self, f: u32, object: Option<u64>, args: &[Value]) -> Answer {
        if !self.keys.ask() {
            return Answer::Full;
        }
        let posted = self.posts(f, object);
        if posted && args.len() <= FEW {
            // Apart and in line, since nothing but `void` and one fault comes of it.
            let said = self.ask(true, AskKind::Call, f, object, args);
            return answer(&self.keys, said);
        }
        let said = self.ask(posted, AskKind::Call, f, object, args);
        answer(&self.keys, said)
    }

    fn read(&mut self, f: u32, object: Option<u64>) -> Answer {
        if !self.keys.ask() {
            return Answer::Full;
        }
        let said = self.ask(false, AskKind::Read, f, object, &[]);
        answer(&self.keys, said)
    }

    fn write(&mut self, f: u32, object: Option<u64>, value: Value) -> Answer {
        if !self.keys.ask() {
            return Answer::Full;
        }
        let said = self.ask(false, AskKind::Write, f, object, &[value]);
        answer(&self.keys, said)
    }

    fn add_ref(&mut self, key: u64) -> bool {
        self.keys.add_ref(key)
    }

    fn release(&mut self, key: u64) -> bool {
        self.keys.release(key)
    }
}
