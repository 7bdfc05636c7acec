ghost use Rattle.std.specs.Prelude.{◌≡◌, true, not, List};
ghost use Rattle.aft_entries.specs.declared.entry.Entry.{Entry};
ghost use Rattle.aft_entries.specs.declared.key.Key.{Key};
ghost use Rattle.table_model.specs.declared.command.Config.{Config};
ghost use Rattle.table_model.specs.Event.{Event, events};
ghost use Rattle.table_model.specs.Laws.{RibIsClosed, RibIsInOrder, ChainsAreShort, RibChangesByThese, DoneWhereDue, DoneIsThere};
ghost use Rattle.table_model.specs.Legal.{Legal, IsLawful};
ghost use Rattle.table_model.specs.Table.{lookup, in_order, is_shallow, is_too_deep, put};
ghost use Rattle.table_laws.specs.KnownInstances.{EntriesHaveKnownInstances, SelectedRowsAreKnown, AnsweredRowsAreKnown};

/// The events of a legal record are a lawful history: each is answered as the server with one thread does.
pub fn events_are_lawful()
    ensures { (config : Config) (recorded : List Event) → Legal config recorded → IsLawful config (events recorded) }
{}

/// At each event the entries stand in the order of their keys, each key once.
pub fn rib_is_in_order()
    ensures { (config : Config) → RibIsInOrder config }
{}

/// At each event every entry's references are in the table.
pub fn rib_is_closed()
    ensures { (config : Config) → RibIsClosed config }
{}

/// At each event no chain of backups comes back to itself or has more than four groups.
pub fn chains_are_short()
    ensures { (config : Config) → ChainsAreShort config }
{}

/// At each event the instances that an entry names, its key's and that of a route's group, are of the configured ones.
pub fn entries_have_known_instances()
    ensures { (config : Config) → EntriesHaveKnownInstances config }
{}

/// At each event the rows that a Select selects, and so those that it answers, name instances of the configured ones.
pub fn selected_rows_are_known()
    ensures selected { (config : Config) → SelectedRowsAreKnown config }
    ensures answered { (config : Config) → AnsweredRowsAreKnown config }
{}

/// A group is refused as too deep exactly where the table with it would have a chain that comes back to itself or has
/// more than four groups.
pub fn too_deep_is_not_shallow()
    ensures { (table : List Entry) (entry : Entry) → in_order table ≡ true → is_shallow table ≡ true
        → is_too_deep table entry ≡ not (is_shallow (put entry table)) }
{}

/// The table changes only by an operation of the then primary under the highest id, a Flush that is allowed, or the
/// end of the then primary's session under DELETE.
pub fn rib_changes_by_these()
    ensures { (config : Config) → RibChangesByThese config }
{}

/// An operation is acknowledged exactly where it is due.
pub fn done_where_due()
    ensures { (config : Config) → DoneWhereDue config }
{}

/// Right after an acknowledgement the table has the entry, or no longer the key.
pub fn done_is_there()
    ensures { (config : Config) → DoneIsThere config }
{}

/// Tables in order that have the same entry at each key are one.
pub fn equal_lookups()
    ensures { (one other : List Entry) → in_order one ≡ true → in_order other ≡ true → ((key : Key) → lookup key one ≡ lookup key other) → one ≡ other }
{}
