ghost use Rattle.std.specs.Prelude.{◌≡◌, ◌<◌, ◌≤◌, ◌==◌, ◌∷◌, All, None, IfOk, OnOk, OnErr, length, take, drop};
ghost use Rattle.aft_entries.specs.InstanceNames.{fault_of};
ghost use Rattle.gribi_messages.specs.Rows.{RowHasKnownInstances, rows_bytes};
ghost use Rattle.gribi_messages.specs.GetAndFlush.{flush_response_bytes};
ghost use Rattle.call_answers.specs.Answers.{MAX_MESSAGE_SIZE};
ghost use Rattle.call_requests.specs.Responses.{HasSixOctets, RowIsSound, get_responses, flush_answer};

use aft_entries::{Entry, Payload, Row, Rows};
use call_answers::Setting;
use gribi_messages::{FlushResponse, encode_flush_response, encode_get_response};
use schema_numbers::{Numbering, ValueName};
use std::alloc::{AllocError, Global};
use std::marker::Model;

/// How many rows a message of an answer to a Get has at most.
pub const ROWS_A_RESPONSE: usize = 64;

// The next three say what is known by type: a MAC address has six octets.
fn octets_are_six(octets: &[u8; 6])
    ensures { length octets.now ≡ 6 }
{}

fn mac_has_six_octets(entry: &Entry)
    ensures { HasSixOctets entry.now.payload }
{
    if let Payload::Hop(hop) = &entry.payload {
        if let Some(octets) = &hop.mac {
            octets_are_six(octets);
        }
    }
}

fn macs_have_six_octets(rows: &[Row])
    ensures { All (λ row. HasSixOctets row.entry.payload) rows.now }
{
    for row in rows {
        mac_has_six_octets(&row.entry);
    }
}

// The message of the first rows, as many as it may have.
fn first_response(alloc: Global, setting: &Setting, rows: &[Row]) -> Result<Vec<u8>, AllocError>
    requires { All (RowHasKnownInstances (length setting.now.instances)) rows.now }
    ensures bytes { IfOk result (λ bytes. bytes.items ≡ rows_bytes setting.now.numbering setting.now.instances (take 64 rows.now)) }
    ensures macs { All (λ row. HasSixOctets row.entry.payload) (take 64 rows.now) }
{
    let (first, _) = rows.split_at(rows.len().min(ROWS_A_RESPONSE));
    macs_have_six_octets(first);
    encode_get_response(alloc, &setting.numbering, &setting.instances, first)
}

/// The rows that a Get selected and no message has given yet. Contracts see their list.
#[derive(Drop)]
pub struct Selection {
    rows: Rows,
    given: usize,
}

impl Model for Selection {
    ghost use Rattle.std.specs.Prelude.{List, drop, length, ◌≤◌};
    ghost use Rattle.aft_entries.specs.declared.operation.Row.{Row};

    ghost Value = { List Row };

    ghost view = { λ s. drop s.given s.rows };

    ghost invariant = { λ s. s.given ≤ length s.rows };
}

impl Selection {
    /// The rows of a Selected reply, none of which is given.
    pub fn new(rows: Rows) -> Selection
        ensures { result ≡ rows }
    {
        Selection { rows, given: 0 }
    }

    /// Whether all rows are given.
    pub fn is_over(&self) -> bool
        ensures { result ≡ (length self.now == 0) }
    {
        self.given == self.rows.as_slice().len()
    }

    /// The next message of the answer to the Get: the first rows that no message has given, at most 64 of them. Each names instances
    /// that are configured. Without memory the rows stay.
    pub fn next_response(&mut self, alloc: Global, setting: &Setting) -> Result<Vec<u8>, AllocError>
        requires some { 0 < length self.old }
        requires known { All (RowHasKnownInstances (length setting.now.instances)) self.old }
        ensures ok { IfOk result (λ bytes. get_responses setting.now.numbering setting.now.instances self.old
            ≡ bytes.items ∷ get_responses setting.now.numbering setting.now.instances self.new) }
        ensures rest { OnOk result (self.new ≡ drop 64 self.old) }
        ensures err { OnErr result (self.new ≡ self.old) }
        ensures short { fault_of setting.now.instances ≡ None → All (RowIsSound (length setting.now.instances)) self.old
            → IfOk result (λ bytes. length bytes.items ≤ MAX_MESSAGE_SIZE) }
    {
        let rows = self.rows.as_slice();
        let (_, coming) = rows.split_at(self.given);
        let count = coming.len().min(ROWS_A_RESPONSE);
        let bytes = first_response(alloc, setting, coming)?;
        self.given += count;
        Ok(bytes)
    }
}

fn flush_answer_of(n: &Numbering, now: i64, remains: bool) -> FlushResponse
    ensures { result ≡ flush_answer n.now now remains }
{
    let result = if remains {
        n.value(ValueName::FlushResultNonZeroReferenceRemain)
    } else {
        n.value(ValueName::FlushResultOk)
    };
    FlushResponse {
        timestamp: now,
        result,
    }
}

/// The message of the answer to a Flush that was done at this moment, in nanoseconds, and whether an entry of a named instance
/// remains.
pub fn flush_response(
    alloc: Global,
    n: &Numbering,
    now: i64,
    remains: bool,
) -> Result<Vec<u8>, AllocError>
    ensures bytes { IfOk result (λ bytes. bytes.items ≡ flush_response_bytes n.now (flush_answer n.now now remains)) }
    ensures short { IfOk result (λ bytes. length bytes.items ≤ MAX_MESSAGE_SIZE) }
{
    encode_flush_response(alloc, n, flush_answer_of(n, now, remains))
}
