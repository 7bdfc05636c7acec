//! The rows that a Get is still to be given.
ghost use Rattle.std.specs.Prelude.{◌≡◌, ◌<◌, ◌≤◌, ◌==◌, ◌∷◌, All, IfOk, IfSome, None, OnOk, length, drop, true, false};
ghost use Rattle.aft_messages.specs.Printing.{HasKnownInstance};
ghost use Rattle.gribi_messages.specs.Rows.{RowHasKnownInstances};
ghost use Rattle.call_answers.specs.Answers.{MAX_MESSAGE_SIZE};
ghost use Rattle.call_orders.specs.Orders.{is_stopped_by};
ghost use Rattle.call_requests.specs.Responses.{get_responses};
ghost use Rattle.session_engine.specs.Responding.{GivesNext};
ghost use Rattle.session_engine.specs.Steps.{rows_selected};

use crate::endings::good_end;
use crate::step::{LONGEST_MESSAGE, Step};
use aft_entries::{Payload, Row, Rows};
use call_answers::Setting;
use call_requests::Selection;
use std::alloc::{AllocError, Global};
use std::marker::Model;
use table_model::Reply;

fn payload_is_known(payload: &Payload, instances: u16) -> bool
    ensures { result ≡ true → HasKnownInstance instances payload.now }
{
    match payload {
        Payload::Hop(_) => true,
        Payload::Group(_) => true,
        Payload::Route(route) => route.instance < instances,
    }
}

// The row names instances below this number alone.
fn is_known(row: &Row, instances: u16) -> bool
    ensures { result ≡ true → RowHasKnownInstances instances row.now }
{
    if row.entry.key.instance >= instances {
        return false;
    }
    payload_is_known(&row.entry.payload, instances)
}

fn are_known(rows: &[Row], instances: u16) -> bool
    ensures { result ≡ true → All (RowHasKnownInstances instances) rows.now }
{
    for row in rows {
        if !is_known(row, instances) {
            return false;
        }
    }
    true
}

/// Whether the rows that a reply has, if any, name instances below this number alone. All rows do that a table of so many instances
/// answers.
pub(crate) fn names_known(reply: &Reply, instances: u16) -> bool
    ensures known { result ≡ true → IfSome (rows_selected reply.now) (λ rows. All (RowHasKnownInstances instances) rows) }
    ensures going { result ≡ false → is_stopped_by reply.now ≡ false }
{
    match reply {
        Reply::Selected(rows) => are_known(rows.as_slice(), instances),
        _ => true,
    }
}

/// The rows of a Get that no message has given yet, which name instances of the setting alone. Contracts see their list.
#[derive(Drop)]
pub struct KnownRows {
    rows: Selection,
    instances: u16,
}

impl Model for KnownRows {
    ghost use Rattle.std.specs.Prelude.{List, All};
    ghost use Rattle.aft_entries.specs.declared.operation.Row.{Row};
    ghost use Rattle.gribi_messages.specs.Rows.{RowHasKnownInstances};

    ghost Value = { List Row };

    ghost view = { λ k. k.rows };

    ghost invariant = { λ k. All (RowHasKnownInstances k.instances) k.rows };
}

impl KnownRows {
    // The rows of a Selected reply, none of which is given.
    pub(crate) fn new(rows: Rows, instances: u16) -> KnownRows
        requires { All (RowHasKnownInstances instances) rows }
        ensures { result ≡ rows }
    {
        KnownRows {
            rows: Selection::new(rows),
            instances,
        }
    }

    // Whether all rows are given.
    fn is_over(&self) -> bool
        ensures { result ≡ (length self.now == 0) }
    {
        self.rows.is_over()
    }

    // The next message. It fails for want of memory, and where the setting has other instances or the message is too long, which
    // doesn't come about over one table with one setting.
    fn next_response(&mut self, alloc: Global, setting: &Setting) -> Result<Vec<u8>, AllocError>
        requires { 0 < length self.old }
        ensures ok { IfOk result (λ bytes. get_responses setting.now.numbering setting.now.instances self.old
            ≡ bytes.items ∷ get_responses setting.now.numbering setting.now.instances self.new) }
        ensures rest { OnOk result (self.new ≡ drop 64 self.old) }
        ensures short { IfOk result (λ bytes. length bytes.items ≤ MAX_MESSAGE_SIZE) }
    {
        if setting.instances.count() != self.instances {
            return Err(AllocError);
        }
        let bytes = self.rows.next_response(alloc, setting)?;
        if bytes.len() > LONGEST_MESSAGE {
            return Err(AllocError);
        }
        Ok(bytes)
    }
}

/// How the next response of a Get went.
#[derive(Clone, Copy, Debug, PartialEq, Eq)]
pub(crate) enum Given {
    /// Others come behind it.
    Part,
    /// It was the last, and the call has its end.
    Last,
    /// There was no memory for it.
    OutOfMemory,
}

/// Gives the next response of a Get, with the good end beside the last. Where no row is left it gives the end alone.
pub(crate) fn give_next(
    alloc: Global,
    setting: &Setting,
    rows: &mut KnownRows,
    out: &mut Step,
) -> Given
    requires no_end { out.old.end ≡ None }
    ensures given { GivesNext setting.now result rows.old rows.new out.old out.new }
    ensures halted { out.new.halted ≡ out.old.halted }
{
    if rows.is_over() {
        out.end = Some(good_end());
        return Given::Last;
    }
    let Ok(bytes) = rows.next_response(alloc, setting) else {
        return Given::OutOfMemory;
    };
    let Ok(()) = out.answers.push(bytes) else {
        return Given::OutOfMemory;
    };
    if rows.is_over() {
        out.end = Some(good_end());
        return Given::Last;
    }
    Given::Part
}
