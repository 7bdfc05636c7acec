//! The calls that lines began.
ghost use Rattle.std.specs.Prelude.{◌≡◌, ◌++◌, ◌∷◌, [], ◌<◌, IfOk, OnOk, is_some, vec_len, vec_capacity};
ghost use Rattle.std.specs.List.{position};
ghost use Rattle.line_verdicts.specs.Verdicts.{judged};
ghost use Rattle.compliance_client.specs.Deeds as spec;

use crate::message::{hear_flush, hear_get, hear_modify};
use aft_entries::Name;
use grpc_heads::Method;
use line_verdicts::{CallItems, Judged, SeenEnd, Tally};
use schema_numbers::Numbering;
use script_lang::Line;
use std::alloc::{AllocError, Global};
use std::marker::Model;

/// A call that a line began.
#[derive(Drop)]
pub(crate) struct KeptCall {
    name: Name,
    stream: u32,
    method: Method,
    // The election id that was sent last.
    elected: Option<u128>,
    items: CallItems,
}

impl Model for KeptCall {
    ghost use Rattle.compliance_client.specs.Deeds.{CallView};

    ghost Value = { CallView };

    ghost view = { λ c. record { name = c.name; stream = c.stream; method = c.method; elected = c.elected; heard = c.items } };
}

/// The name of the call that a line is about: its second word.
pub(crate) fn call_name(line: &Line) -> &str
    ensures { result.now ≡ spec.call_name line.now }
{
    let mut words = line.words();
    let Some(_first) = words.next() else {
        return "";
    };
    match words.next() {
        None => "",
        Some(second) => second,
    }
}

/// Where the call of this name stands.
pub(crate) fn place_named(calls: &[KeptCall], name: &[u8]) -> Option<usize>
    ensures { result ≡ position (spec.is_named name.now) calls.now }
{
    calls.iter().position(|call| call.is_named(name))
}

/// Where the call on this stream stands.
pub(crate) fn place_on(calls: &[KeptCall], stream: u32) -> Option<usize>
    ensures { result ≡ position (spec.is_on stream) calls.now }
{
    calls.iter().position(|call| call.stream == stream)
}

impl KeptCall {
    fn is_named(&self, name: &[u8]) -> bool
        ensures { result ≡ spec.is_named name.now self.now }
    {
        self.name.as_str().as_bytes() == name
    }

    /// A call of which nothing was heard. Its stream is known once it has begun.
    pub(crate) fn new(alloc: Global, line: &Line, method: Method) -> Result<KeptCall, AllocError>
        ensures { IfOk result (λ c. c ≡ spec.new_call line.now 0 method) }
    {
        let name = String::from_str(alloc, call_name(line))?;
        Ok(KeptCall {
            name: Name::from_string(name),
            stream: 0,
            method,
            elected: None,
            items: CallItems::new(alloc),
        })
    }

    /// The call has begun on a stream.
    pub(crate) fn begin(&mut self, stream: u32)
        ensures { self.new ≡ record self.old { stream = stream } }
    {
        self.stream = stream;
    }

    pub(crate) fn stream(&self) -> u32
        ensures { result ≡ self.now.stream }
    {
        self.stream
    }

    pub(crate) fn method(&self) -> Method
        ensures { result ≡ self.now.method }
    {
        self.method
    }

    pub(crate) fn elected(&self) -> Option<u128>
        ensures { result ≡ self.now.elected }
    {
        self.elected
    }

    /// A message was sent, with this election id if it has one.
    pub(crate) fn elect(&mut self, election: Option<u128>)
        ensures { self.new ≡ spec.elects election self.old }
    {
        if let Some(id) = election {
            self.elected = Some(id);
        }
    }

    /// The call has ended.
    pub(crate) fn end(&mut self, ending: SeenEnd)
        ensures { self.new ≡ spec.ends ending self.old }
    {
        self.items.end(ending);
    }

    /// A message came. Says whether it can't be read, which ends the call.
    pub(crate) fn hear(
        &mut self,
        alloc: Global,
        n: &Numbering,
        bytes: &[u8],
        tally: &mut Tally,
    ) -> Result<bool, AllocError>
        ensures refused { IfOk result (λ is_refused. is_refused ≡ is_some (spec.fault_in n.now self.old.method bytes.now)) }
        ensures heard { OnOk result (self.new ≡ spec.hears_message n.now bytes.now self.old) }
        ensures counted { OnOk result (tally.new ≡ spec.tally_message n.now self.old.method bytes.now tally.old) }
    {
        match self.method {
            Method::Modify => hear_modify(alloc, n, bytes, &mut self.items, tally),
            Method::Get => hear_get(alloc, n, bytes, &mut self.items),
            Method::Flush => hear_flush(n, bytes, &mut self.items),
        }
    }

    /// The verdict of an expect line.
    pub(crate) fn judge(&mut self, line: &Line) -> Option<Judged>
        ensures verdict { result ≡ judged line.now self.old.heard }
        ensures left { self.new ≡ spec.judges line.now self.old }
    {
        self.items.judge(line)
    }
}

/// Keeps one more call, for which there is room.
pub(crate) fn keep(kept: &mut Vec<KeptCall>, mut call: KeptCall, stream: u32)
    requires room { vec_len kept.old < vec_capacity kept.old }
    ensures { kept.new.items ≡ kept.old.items ++ record call { stream = stream } ∷ [] }
{
    call.begin(stream);
    if kept.push(call).is_err() {
        unreachable!()
    }
}
