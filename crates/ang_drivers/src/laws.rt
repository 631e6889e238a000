//! Laws of the definitions, each the contract of a function that does nothing. No program calls them.
ghost use Rattle.std.specs.Prelude.{ℕ, ℤ, ◌+◌, ◌≡◌, ◌≤◌, ◌∷◌, T, true, List, Option};
ghost use Rattle.ang_kinds.specs.declared.value.Value.{Value};
ghost use Rattle.ang_drivers.specs.declared.counter.Count.{Count};
ghost use Rattle.ang_drivers.specs.declared.faulty.Failing.{Failing};
ghost use Rattle.ang_drivers.specs.Console.{code_of};
ghost use Rattle.ang_drivers.specs.Objects.{Table};
ghost use Rattle.ang_drivers.specs.Tables.{core_of};
ghost use Rattle.ang_drivers.specs.Counter.{count_code};
ghost use Rattle.ang_drivers.specs.Faulty.{faulty_core};
ghost use Rattle.ang_drivers.specs.Cell.{value_code};
ghost use Rattle.ang_drivers.specs.IntList.{list_code};
ghost use Rattle.ang_drivers.specs.IntMap.{Pairs, MapDoes, map_code};
ghost use Rattle.ang_drivers.specs.declared.pairs.MapCall.{MapCall};
ghost use Rattle.std.specs.Ordering.{int_cmp};
ghost use Rattle.std.specs.FinMap.{is_sorted};
ghost use Rattle.ang_host.specs.declared.answer.Answer.{Answer};
ghost use Rattle.ang_host.specs.declared.answer.Answer.TheVariants.{Void};
ghost use Rattle.ang_host.specs.declared.answer.HostReply.{HostReply};
ghost use Rattle.ang_host.specs.declared.answer.HostReply.TheVariants.{Asking};
ghost use Rattle.ang_host.specs.declared.event.HostEvent.{HostEvent};
ghost use Rattle.ang_host.specs.declared.event.Role.{Role};
ghost use Rattle.ang_host.specs.State.{Ask, call};
ghost use Rattle.ang_host.specs.Events.{CoreMoves};
ghost use Rattle.ang_drivers.specs.declared.limited.CallLimit.{CallLimit};
ghost use Rattle.ang_drivers.specs.Limited.{limited_core, LimitedFits, refusal, uses_one};
ghost use Rattle.ang_drivers.specs.LimitedEvents.{answered_in, ResetsNothing};

use ang_host::Driver;

/// Two values of one code are the same, so the core of a console tells what it keeps: a read of the
/// register can answer nothing but the value that was written last.
pub fn codes_differ()
    ensures apart { (v w : Value) → code_of v ≡ code_of w → v ≡ w }
{}

/// Two tables of counts of one core are the same, so the core of a counter tells the next key and, of
/// each live object, its key, value and step.
pub fn counter_cores_differ()
    ensures apart { (x y : Table Count) → core_of count_code x ≡ core_of count_code y → x ≡ y }
{}

/// Two faulty drivers of one core are the same but for references and tallies: the core tells how many
/// askings are left, how the last of them fails, and what a counter's core tells.
pub fn faulty_cores_differ()
    ensures apart { (m n : ℕ) (g h : Failing) (x y : Table Count)
        → faulty_core m g (core_of count_code x) ≡ faulty_core n h (core_of count_code y)
        → (m ≡ n) × (g ≡ h) × (x ≡ y) }
{}

/// Two tables of numbers of one core are the same, so the core of a cell tells the next key and, of
/// each live object, its key and value.
pub fn cell_cores_differ()
    ensures apart { (x y : Table ℤ) → core_of value_code x ≡ core_of value_code y → x ≡ y }
{}

/// Two drivers of lists of one core are the same but for references and tallies: the core tells the bound, the
/// next key and, of each live object, its key and its numbers in order.
pub fn list_cores_differ()
    ensures apart { (m n : ℕ) (x y : Table (List ℤ))
        → m ∷ core_of list_code x ≡ n ∷ core_of list_code y → (m ≡ n) × (x ≡ y) }
{}

/// Two drivers of maps of one core are the same but for references and tallies: the core tells the bound, the
/// next key and, of each live object, its key and its pairs in order.
pub fn map_cores_differ()
    ensures apart { (m n : ℕ) (x y : Table Pairs)
        → m ∷ core_of map_code x ≡ n ∷ core_of map_code y → (m ≡ n) × (x ≡ y) }
{}

/// Keys that rise still rise after a call of the map. Those of an empty map do, so the keys that are told by index
/// ascend.
pub fn keys_rise()
    ensures rise { (bound : ℕ) (es ns : Pairs) (m : MapCall) (a : Answer)
        → T (is_sorted int_cmp es) → MapDoes bound es m a ns → T (is_sorted int_cmp ns) }
{}

/// What a `Limited` around a driver of the type `D` does with a host call, where its core tells how many are
/// left. While some are, one fewer is left after it, and the driver inside moves as it says itself. While none
/// is, the answer is the fault, and nothing changes. A reset leaves the driver inside.
pub fn limited_moves<D: Driver>()
    ensures below { (l : CallLimit) (left : ℕ) (x : List ℕ) (a : Ask) (r : HostReply) (d : List ℕ)
        → uses_one l a ≡ true → LimitedFits D.meaning.fits (limited_core l (left + 1) x) a r d
        → (y : List ℕ) × (d ≡ limited_core l left y) × D.meaning.fits x a r y }
    ensures above { (l : CallLimit) (x : List ℕ) (a : Ask) (r : HostReply) (d : List ℕ)
        → uses_one l a ≡ true → LimitedFits D.meaning.fits (limited_core l 0 x) a r d
        → (r ≡ refusal l a) × (d ≡ limited_core l 0 x) }
    ensures reset { (l : CallLimit) (left : ℕ) (x : List ℕ) (o : Option ℕ) (args : List Value)
        (r : HostReply) (d : List ℕ)
        → LimitedFits D.meaning.fits (limited_core l left x) (call l.reset o args) r d
        → (r ≡ Asking Void) × (d ≡ limited_core l l.calls x) }
{}

/// Of host calls without a reset among them, a `Limited` answers no more otherwise than by its fault than
/// were left before them. (Those answered `Full`, by which nothing was asked, are left out.)
pub fn limit_holds<D: Driver>()
    ensures at_most { (roles : List Role) (l : CallLimit) (left : ℕ) (x d : List ℕ) (events : List HostEvent)
        → CoreMoves roles (LimitedFits D.meaning.fits) (limited_core l left x) events d
        → ResetsNothing roles l events → answered_in l.fault events ≤ left }
{}
