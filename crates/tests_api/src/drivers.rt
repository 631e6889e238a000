//! Sample drivers, each asked one thing after the other.
mod asking;
mod collections;
mod failing;
mod limited;
mod listed;
mod numbers;

pub use self::asking::are_bare;
use self::asking::{Row, wrong_of};
use ang_drivers::{CallLimit, Cell, Console, Counter, Failing, Faulty, IntList, IntMap, Limited};
use std::alloc::{AllocError, Global};

/// A new driver.
enum Sample {
    Console,
    Counter,
    Cell,
    /// Lists of at most so many numbers.
    Lists(u32),
    /// Maps of at most so many keys.
    Maps(u32),
    /// A counter whose second asking fails so.
    FaultyAtSecond(Failing),
    /// A counter whose fourth asking fails so.
    FaultyAtFourth(Failing),
    /// A counter behind a limit.
    Limited(CallLimit),
}

/// What is asked of a new driver.
type Session = (&'static str, Sample, &'static [Row]);

/// A counter behind a limit.
fn limited_counter(alloc: Global, limit: CallLimit) -> Result<Limited<Counter>, AllocError> {
    Ok(Limited::new(Counter::new(alloc)?, limit))
}

/// The place of the first row that is answered otherwise.
fn wrong_in(alloc: Global, session: &Session) -> Result<Option<usize>, AllocError> {
    let rows = session.2;
    match &session.1 {
        Sample::Console => wrong_of(Console::new(alloc), rows),
        Sample::Counter => wrong_of(Counter::new(alloc), rows),
        Sample::Cell => wrong_of(Cell::new(alloc), rows),
        Sample::Lists(bound) => wrong_of(IntList::new(alloc, *bound), rows),
        Sample::Maps(bound) => wrong_of(IntMap::new(alloc, *bound), rows),
        Sample::FaultyAtSecond(how) => wrong_of(Faulty::new(alloc, 2, *how), rows),
        Sample::FaultyAtFourth(how) => wrong_of(Faulty::new(alloc, 4, *how), rows),
        Sample::Limited(limit) => wrong_of(limited_counter(alloc, *limit), rows),
    }
}

#[test]
fn numbers_are_kept(rt: HostRuntime) -> Result<(), AllocError> {
    for session in numbers::SESSIONS {
        assert_eq!(rt; wrong_in(rt.alloc(), session)?, None, "{}", session.0);
    }
    Ok(())
}

#[test]
fn lists_and_maps_are_kept(rt: HostRuntime) -> Result<(), AllocError> {
    for session in collections::SESSIONS {
        assert_eq!(rt; wrong_in(rt.alloc(), session)?, None, "{}", session.0);
    }
    Ok(())
}

#[test]
fn askings_fail_and_are_limited(rt: HostRuntime) -> Result<(), AllocError> {
    for session in failing::SESSIONS {
        assert_eq!(rt; wrong_in(rt.alloc(), session)?, None, "{}", session.0);
    }
    Ok(())
}
