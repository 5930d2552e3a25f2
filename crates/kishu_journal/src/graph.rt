// The graph of the records of a store.
ghost use Rattle.std.specs.Prelude.{◌≡◌, ◌^◌, Ok, None, IfOk, IfSome};
ghost use Rattle.std.specs.List.{AllByRecursion};
ghost use Rattle.kishu_store.specs.Histories.{new_history};
ghost use Rattle.kishu_store.specs.Rules.{IsEntry};
ghost use Rattle.kishu_journal.specs.Facts.{HasTablesOf, IsGraphOf};
ghost use Rattle.kishu_journal.specs.Found.{entries_of, AllFit, AreBelow};

use crate::Entry;
use crate::following::follow;
use kishu_graph::Graph;
use std::alloc::{AllocError, Global};

/// The graph of records, with the tables of its commits, or none where one of the records doesn't fit
/// behind those before it.
///
/// Its condition is that each entry keeps the rules of a record, with a head of fewer than 2^32 bytes,
/// and that each place, which is that of the record's body, is below 2^63, as `Journal::attach` answers
/// them. An error says that no memory is left.
pub fn graph_of(alloc: Global, entries: &[(u64, Entry)]) -> Result<Option<Graph>, AllocError>
    requires rules { AllByRecursion IsEntry (entries_of entries.now) }
    requires places { AreBelow (2 ^ 63) entries.now }
    ensures stands { IfOk result (λ o. IfSome o (λ graph. IsGraphOf entries.now graph)) }
    ensures tables { IfOk result (λ o. IfSome o (λ graph. HasTablesOf entries.now graph)) }
    ensures fit { IfOk result (λ o. IfSome o (λ graph. AllFit new_history (entries_of entries.now))) }
    ensures none { result ≡ Ok None → AllFit new_history (entries_of entries.now) → ⊥ }
{
    let mut graph = Graph::new(alloc)?;
    for (place, entry) in entries {
        if !follow(alloc, &mut graph, entry, *place)? {
            return Ok(None);
        }
    }
    Ok(Some(graph))
}
