//! What one driver is asked, step by step, as rows of a test.
ghost use Rattle.std.specs.Prelude.{◌≡◌, IsTrue};
ghost use Rattle.std.specs.List.{list_all};
ghost use Rattle.ang_host.specs.State.{State};
ghost use Rattle.ang_host.specs.Laws.{IsLiveOption, IsLiveValue, AreLive};
ghost use Rattle.tests_api.specs.Bare.{is_bare};

use ang_host::{Answer, Driver, Made};
use ang_kinds::Value;

/// A host call of the function or property of that number. No value in it is the key of an object.
pub enum Asking {
    Call(u32, &'static [Value]),
    Read(u32),
    Write(u32, Value),
}

/// What a driver is asked, and what it answers. The object is the one that was made last.
pub enum Row {
    /// A host call without an object, after which there is none.
    Alone(Asking, Answer),
    /// A host call of the object.
    Of(Asking, Answer),
    /// The same, asked once again where there is no memory.
    AtLast(Asking, Answer),
    /// An object from the factory of that number.
    Makes(u32, &'static [Value], Made),
    /// The same, asked once again where none is made.
    MakesAtLast(u32, &'static [Value], Made),
    /// An object from the factory of that number, by the one there is and a number.
    MakesFrom(u32, i64, Made),
    /// A call without an object, with the object as its argument.
    Passes(u32, Answer),
    /// A reference to the object more.
    Adds,
    /// A reference fewer, which is the last one or not.
    Releases(bool),
    /// Whether the driver is idle.
    IsIdle(bool),
}

// ---- values without objects

fn names_nothing(value: &Value) -> bool
    ensures exact { result ≡ is_bare value.now }
{
    match value {
        Value::Int(_) => true,
        Value::Uint(_) => true,
        Value::Bool(_) => true,
        Value::Key(None) => true,
        Value::Key(Some(_)) => false,
    }
}

fn name_nothing(values: &[Value]) -> bool
    ensures exact { result ≡ list_all is_bare values.now }
{
    values.iter().all(|value| names_nothing(value))
}

/// Whether no value is the key of an object.
pub fn are_bare(values: &[Value]) -> bool
    ensures live { IsTrue result → (s : State) → AreLive s values.now }
{
    name_nothing(values)
}

/// Whether a value is not the key of an object.
fn is_without_object(value: &Value) -> bool
    ensures live { IsTrue result → (s : State) → IsLiveValue s value.now }
{
    names_nothing(value)
}

// ---- host calls

fn called<D: Driver>(driver: &mut D, object: Option<u64>, f: u32, args: &[Value]) -> Answer
    requires live { IsLiveOption (D.meaning.state driver.old) object }
    requires args_live { AreLive (D.meaning.state driver.old) args.now }
    ensures live { IsLiveOption (D.meaning.state driver.new) object }
{
    driver.call(f, object, args)
}

fn told<D: Driver>(driver: &mut D, object: Option<u64>, f: u32) -> Answer
    requires live { IsLiveOption (D.meaning.state driver.old) object }
    ensures live { IsLiveOption (D.meaning.state driver.new) object }
{
    driver.read(f, object)
}

fn written<D: Driver>(driver: &mut D, object: Option<u64>, f: u32, value: Value) -> Answer
    requires live { IsLiveOption (D.meaning.state driver.old) object }
    requires value_live { IsLiveValue (D.meaning.state driver.old) value }
    ensures live { IsLiveOption (D.meaning.state driver.new) object }
{
    driver.write(f, object, value)
}

/// What a driver answers, of an object or not; nothing where a value is the key of one.
fn answer<D: Driver>(driver: &mut D, object: Option<u64>, asking: &Asking) -> Option<Answer>
    requires live { IsLiveOption (D.meaning.state driver.old) object }
    ensures live { IsLiveOption (D.meaning.state driver.new) object }
{
    match asking {
        Asking::Call(f, args) if are_bare(args) => Some(called(driver, object, *f, args)),
        Asking::Read(f) => Some(told(driver, object, *f)),
        Asking::Write(f, value) if is_without_object(value) => {
            Some(written(driver, object, *f, *value))
        }
        _ => None,
    }
}

fn answer_at_last<D: Driver>(driver: &mut D, object: Option<u64>, asking: &Asking) -> Option<Answer>
    requires live { IsLiveOption (D.meaning.state driver.old) object }
    ensures live { IsLiveOption (D.meaning.state driver.new) object }
{
    match answer(driver, object, asking) {
        Some(Answer::Memory) => answer(driver, object, asking),
        answer => answer,
    }
}

/// Whether a row is right, and the object that there is from then on.
type Taken = (bool, Option<u64>);

fn made<D: Driver>(driver: &mut D, f: u32, args: &[Value], want: Made) -> Taken
    requires args_live { AreLive (D.meaning.state driver.old) args.now }
    ensures live { IsLiveOption (D.meaning.state driver.new) result.1 }
{
    match driver.make(f, args) {
        Made::Key(key) => (want == Made::Key(key), Some(key)),
        made => (made == want, None),
    }
}

fn made_of_nothing<D: Driver>(driver: &mut D, f: u32, args: &[Value], want: Made) -> Taken
    ensures live { IsLiveOption (D.meaning.state driver.new) result.1 }
{
    if are_bare(args) {
        made(driver, f, args, want)
    } else {
        (false, None)
    }
}

fn made_at_last<D: Driver>(driver: &mut D, f: u32, args: &[Value], want: Made) -> Taken
    ensures live { IsLiveOption (D.meaning.state driver.new) result.1 }
{
    match made_of_nothing(driver, f, args, want) {
        (_, None) => made_of_nothing(driver, f, args, want),
        taken => taken,
    }
}

fn added<D: Driver>(driver: &mut D, object: Option<u64>) -> Taken
    requires live { IsLiveOption (D.meaning.state driver.old) object }
    ensures live { IsLiveOption (D.meaning.state driver.new) result.1 }
{
    let Some(key) = object else {
        return (false, None);
    };
    if driver.add_ref(key) {
        (true, Some(key))
    } else {
        (false, None)
    }
}

fn released<D: Driver>(driver: &mut D, object: Option<u64>, last: bool) -> Taken
    requires live { IsLiveOption (D.meaning.state driver.old) object }
    ensures live { IsLiveOption (D.meaning.state driver.new) result.1 }
{
    let Some(key) = object else {
        return (false, None);
    };
    if driver.release(key) {
        (last, None)
    } else {
        (!last, Some(key))
    }
}

// ---- rows

fn take<D: Driver>(driver: &mut D, object: Option<u64>, row: &Row) -> Taken
    requires live { IsLiveOption (D.meaning.state driver.old) object }
    ensures live { IsLiveOption (D.meaning.state driver.new) result.1 }
{
    match row {
        Row::Alone(asking, want) => (answer(driver, None, asking) == Some(*want), None),
        Row::Of(asking, want) => (answer(driver, object, asking) == Some(*want), object),
        Row::AtLast(asking, want) => {
            (
                answer_at_last(driver, object, asking) == Some(*want),
                object,
            )
        }
        Row::Makes(f, args, want) => made_of_nothing(driver, *f, args, *want),
        Row::MakesAtLast(f, args, want) => made_at_last(driver, *f, args, *want),
        Row::MakesFrom(f, number, want) => {
            made(
                driver,
                *f,
                &[Value::Key(object), Value::Int(*number)],
                *want,
            )
        }
        Row::Passes(f, want) => (driver.call(*f, None, &[Value::Key(object)]) == *want, None),
        Row::Adds => added(driver, object),
        Row::Releases(last) => released(driver, object, *last),
        Row::IsIdle(want) => (driver.idle() == *want, object),
    }
}

/// The place of the first row that is answered otherwise.
pub fn first_wrong<D: Driver>(driver: &mut D, rows: &[Row]) -> Option<usize> {
    let mut object = None;
    for (at, row) in rows.iter().enumerate() {
        let (is_right, next) = take(driver, object, row);
        if !is_right {
            return Some(at);
        }
        object = next;
    }
    None
}

/// The same of a driver that is not used again.
///
/// # Errors
/// There is no memory for the driver.
pub fn wrong_of<D: Driver, E>(driver: Result<D, E>, rows: &[Row]) -> Result<Option<usize>, E> {
    let mut driver = driver?;
    Ok(first_wrong(&mut driver, rows))
}
