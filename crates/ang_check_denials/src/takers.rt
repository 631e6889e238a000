//! Whether a use can mean some hidden entry at all. Where its arguments fit none, what is seen is not looked at.
ghost use Rattle.std.specs.Prelude.{◌≡◌, [], IfOk};
ghost use Rattle.std.specs.List.{list_any};
ghost use Rattle.ang_names_known.specs.Kinds.{numbered};
ghost use Rattle.ang_check_contest.specs.Told.{IsTable, table_of};
ghost use Rattle.ang_check_denials.specs.Added as added;
ghost use Rattle.ang_check_denials.specs.Others.{AreOthers};
ghost use Rattle.ang_check_denials.specs.Takers as spec;

use crate::beside::{no_others, types_of};
use crate::masked::Masked;
use crate::meanings::made_wins;
use ang_check_contest::{Rivalry, Scope, table_for};
use ang_check_uses::takes_number;
use ang_types::{ArgType, Asks, Lineage};
use std::alloc::{AllocError, Global};

/// Whether a use can mean the entry of this number, as far as its arguments say.
fn can_mean(
    masked: &Masked<'_>,
    lineage: &Lineage,
    asks: &Asks,
    number: u32,
    nothing: &Rivalry,
    types: &[ArgType],
    table: &Option<Vec<Vec<Option<u8>>>>,
) -> bool
    requires nothing { AreOthers nothing.now lineage.now [] types.now }
    requires types { types.now ≡ added.types_of asks.now }
    requires table { IsTable lineage.now (numbered 0 masked.now.kinds) types.now
        (table_of table.now) }
    ensures exact { result ≡ spec.can_mean_at masked.now.list lineage.now asks.now number }
{
    match asks {
        Asks::Value => true,
        Asks::Type => true,
        Asks::Enumeration => true,
        Asks::Property(_) => true,
        Asks::Call(_) => {
            takes_number(types) || made_wins(masked, lineage, number, nothing, types, table)
        }
        Asks::Make(_, _) => made_wins(masked, lineage, number, nothing, types, table),
        Asks::Default(_) => made_wins(masked, lineage, number, nothing, types, table),
        Asks::Method(_, _, _) => made_wins(masked, lineage, number, nothing, types, table),
    }
}

/// The same of some entry of a row.
fn can_mean_one(
    masked: &Masked<'_>,
    lineage: &Lineage,
    asks: &Asks,
    row: &[u32],
    nothing: &Rivalry,
    types: &[ArgType],
    table: &Option<Vec<Vec<Option<u8>>>>,
) -> bool
    requires nothing { AreOthers nothing.now lineage.now [] types.now }
    requires types { types.now ≡ added.types_of asks.now }
    requires table { IsTable lineage.now (numbered 0 masked.now.kinds) types.now
        (table_of table.now) }
    ensures exact { result
        ≡ list_any (spec.can_mean_at masked.now.list lineage.now asks.now) row.now }
{
    for number in row {
        if can_mean(masked, lineage, asks, *number, nothing, types, table) {
            return true;
        }
    }
    false
}

/// Whether some entry of a row may help a use of these. The only error is want of memory.
pub fn can_help(
    alloc: Global,
    masked: &Masked<'_>,
    scope: &Scope<'_>,
    asks: &Asks,
    row: &[u32],
) -> Result<bool, AllocError>
    ensures exact { IfOk result (λ can. can
        ≡ list_any (spec.can_mean_at masked.now.list scope.now.ancestors asks.now) row.now) }
{
    let all = types_of(alloc, asks)?;
    let types = all.as_slice();
    let nothing = no_others(alloc, types.len())?;
    let lineage = scope.lineage();
    let table = table_for(alloc, lineage, masked.kinds(), types, row.len())?;
    Ok(can_mean_one(masked, lineage, asks, row, &nothing, types, &table))
}
