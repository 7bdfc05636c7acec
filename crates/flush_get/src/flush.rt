//! What a Flush leaves.
ghost use Rattle.std.specs.Prelude.{◌≡◌, ◌≤◌, length};
ghost use Rattle.table_model.specs.Table as spec;
ghost use Rattle.flush_get.specs.Marking as marking;

use crate::asked::names;
use crate::marks::Marks;
use aft_store::Store;
use table_model::Which;

/// Marks the entries of instances that the flush doesn't name, and those that they reach by references. It answers
/// whether an entry of a named instance is among them, and takes no memory.
pub fn mark_flush(store: &Store, which: Which, marks: &mut Marks) -> bool
    requires { length store.now.entries ≤ marks.old.room }
    ensures values { marks.new.values ≡ marking.staying_marks (length store.now.entries) store.now.entries which }
    ensures marked { spec.kept store.now.entries which ≡ marking.chosen marks.new.values store.now.entries }
    ensures remain { result ≡ spec.remains store.now.entries which }
    ensures room { marks.new.room ≡ marks.old.room }
{
    mark_reached(store, which, marks);
    is_marked(store, which, marks)
}

// After n passes all is marked that a chain of at most n references reaches. Where one brings no mark, none after it does.
fn mark_reached(store: &Store, which: Which, marks: &mut Marks)
    requires { length store.now.entries ≤ marks.old.room }
    ensures values { marks.new.values ≡ marking.staying_marks (length store.now.entries) store.now.entries which }
    ensures room { marks.new.room ≡ marks.old.room }
{
    marks.start(store, which);
    'passes: for _ in 0..store.len() {
        if !marks.pass(store) {
            return;
        }
    }
}

// Whether an entry of a named instance has a mark.
fn is_marked(store: &Store, which: Which, marks: &Marks) -> bool
    requires { marks.now.values ≡ marking.staying_marks (length store.now.entries) store.now.entries which }
    ensures { result ≡ spec.remains store.now.entries which }
{
    for n in 0..store.len() {
        if marks.at(n) && names(which, store.at(n).key.instance) {
            return true;
        }
    }
    false
}
