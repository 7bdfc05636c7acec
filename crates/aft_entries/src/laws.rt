//! Laws of entries. Each is the contract of a function that does nothing: to call it is to cite the law.
ghost use Rattle.std.specs.Prelude.{◌≡◌, ◌↔◌, ℕ, Bool, true, List, IsPermutation};
ghost use Rattle.aft_entries.specs.MemberOrder.{is_in_order, by_index};
ghost use Rattle.aft_entries.specs.declared.entry.Payload.{Payload};
ghost use Rattle.aft_entries.specs.declared.lists.Member.{Member};
ghost use Rattle.aft_entries.specs.declared.operation.Ask.TheVariants.{Put};
ghost use Rattle.aft_entries.specs.declared.operation.RawOperation.{RawOperation};
ghost use Rattle.aft_entries.specs.Checked.{checked};
ghost use Rattle.aft_entries.specs.Shapes.{EntryValue, fits};
ghost use Rattle.aft_entries.specs.Same.{same_payload};

/// Payloads are the same exactly where they are equal.
pub fn same_payloads_are_equal()
    ensures { (one other : Payload) → (same_payload one other ≡ true) ↔ (one ≡ other) }
{}

/// The members of a group in order of their index are the same members, and no member stands before one of a lower
/// index.
pub fn members_are_sorted()
    ensures same { (members : List Member) → IsPermutation members (by_index members) }
    ensures order { (members : List Member) → is_in_order (by_index members) ≡ true }
{}

/// An entry that a checked operation puts has a payload of its key's kind.
pub fn checked_entries_fit()
    ensures { (instances : List (List ℕ)) (operation : RawOperation) (entry : EntryValue) (replace : Bool) →
        checked instances operation ≡ Put entry replace → fits entry.key.name entry.payload ≡ true }
{}
