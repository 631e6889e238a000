//! What a use of a name is asked over, and which of the candidates of a call is the best.
//!
//! A use is asked over a `Scope`: what the module sees of the host (`KnownView`), what its scripts declare, and what stands above
//! each object type. All look-ups in a view stand here, so that each of them has one contract (docs/LANGUAGE.md, "Names of a
//! build"). A `Contest` looks at the candidates of a call one by one, each where it lies. Where there are many, a `ToldContest`
//! ranks the arguments once for each kind of parameter. What is kept of a contest as a `Rivalry` tells whether one candidate more is
//! the best.
#![tactic(auto)]

mod contest;
mod host;
mod known_view;
pub mod laws;
mod levels;
mod ranking;
mod rivalry;
mod scope;
mod score;
mod told;
mod told_contest;

pub use contest::Contest;
pub use host::{
    SeenFunction, SeenProperty, Wanted, WantedProperty, found_at, host_type, host_where, is_wanted,
    property_at, property_where,
};
pub use known_view::{KnownEntries, KnownView};
pub use rivalry::Rivalry;
pub use scope::Scope;
pub use score::{Contender, Outcome};
pub use told::{is_worth_telling, table_for};
pub use told_contest::ToldContest;
