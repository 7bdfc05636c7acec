ghost use Rattle.std.specs.Prelude.{◌≡◌, ◌<◌, ℕ, None, Some, OnOk, OnErr, IfSome, IfNone, IsSome, is_some, length, true};
ghost use Rattle.std.specs.Option.{option_map};
ghost use Rattle.session_engine.specs.Responding.{GivesOf};
ghost use Rattle.session_engine.specs.Stands.{AreSameElsewhere};
ghost use Rattle.session_engine.specs.Queries.{call_on, finishing, is_responding, open_session, received_by, receiving, session_in};

use crate::known_rows::{Given, KnownRows, give_next};
use crate::step::Step;
use bytes::Bytes;
use call_answers::Setting;
use grpc_heads::Method;
use std::alloc::{AllocError, Global};
use std::collections::BTreeMap;
use std::marker::Model;

/// How a call stands that isn't over.
#[derive(Drop)]
pub enum OpenCall {
    /// A Modify call, with its session, and whether its client has ended its side.
    Modifies(u64, bool),
    /// A Get or a Flush whose client has more to say: its first message, and whether others came.
    Receives(Method, Option<Bytes>, bool),
    /// A Get, with the rows that it is still to be given.
    Responds(KnownRows),
}

/// The calls of a connection that aren't over. Contracts see the call on each stream.
#[derive(Drop)]
pub(crate) struct OpenCalls {
    pub(crate) map: BTreeMap<u32, OpenCall>,
}

impl Model for OpenCalls {
    ghost use Rattle.std.specs.Prelude.{ℕ, List};
    ghost use Rattle.session_engine.specs.declared.open_calls.OpenCall.{OpenCall};

    ghost Value = { List (ℕ × OpenCall) };

    ghost view = { λ c. c.map.entries };
}

// A further message of a Get or a Flush.
fn receive(call: &mut OpenCall, message: Bytes)
    ensures { call.new ≡ receiving message call.old }
{
    match call {
        OpenCall::Receives(_, first, is_more) => {
            if first.is_none() {
                *first = Some(message);
                *is_more = false;
            } else {
                *is_more = true;
            }
        }
        _ => {}
    }
}

// The client of a Modify call ended its side.
fn finish(call: &mut OpenCall)
    ensures { call.new ≡ finishing call.old }
{
    match call {
        OpenCall::Modifies(_, is_finished) => *is_finished = true,
        _ => {}
    }
}

// Gives the next response of a Get whose rows were selected.
fn give(call: &mut OpenCall, alloc: Global, setting: &Setting, out: &mut Step) -> Given
    requires responds { is_responding (Some call.old) ≡ true }
    requires no_end { out.old.end ≡ None }
    ensures given { GivesOf setting.now result (Some call.old) (Some call.new) out.old out.new }
    ensures halted { out.new.halted ≡ out.old.halted }
{
    match call {
        OpenCall::Responds(rows) => give_next(alloc, setting, rows, out),
        _ => unreachable!(),
    }
}

impl OpenCalls {
    pub(crate) fn new(alloc: Global) -> OpenCalls
        ensures { (id : ℕ) → call_on result id ≡ None }
    {
        OpenCalls {
            map: BTreeMap::new(alloc),
        }
    }

    // Whether a call is open on the stream.
    pub(crate) fn is_open(&self, stream: u32) -> bool
        ensures { result ≡ is_some (call_on self.now stream) }
    {
        self.map.contains_key(&stream)
    }

    // The session of a Modify call, and whether its client has ended its side.
    pub(crate) fn session(&self, stream: u32) -> Option<(u64, bool)>
        ensures { result ≡ session_in (call_on self.now stream) }
    {
        match self.map.get(&stream) {
            Some(OpenCall::Modifies(session, is_finished)) => Some((*session, *is_finished)),
            _ => None,
        }
    }

    // The session of a Modify call whose client has more to say.
    pub(crate) fn open_session(&self, stream: u32) -> Option<u64>
        ensures { result ≡ open_session (call_on self.now stream) }
    {
        match self.session(stream) {
            Some((session, false)) => Some(session),
            _ => None,
        }
    }

    // Adds a call. It fails for want of memory alone.
    pub(crate) fn add(&mut self, stream: u32, call: OpenCall) -> Result<(), AllocError>
        ensures added { OnOk result (call_on self.new stream ≡ Some call) }
        ensures others { AreSameElsewhere stream self.old self.new }
        ensures err { OnErr result (self.new ≡ self.old) }
    {
        match self.map.insert(stream, call) {
            Ok(_) => Ok(()),
            Err(_) => Err(AllocError),
        }
    }

    // Sets how an open call stands, which takes no memory.
    pub(crate) fn set(&mut self, stream: u32, call: OpenCall)
        requires { IsSome (call_on self.old stream) }
        ensures set { call_on self.new stream ≡ Some call }
        ensures others { AreSameElsewhere stream self.old self.new }
    {
        match self.map.insert(stream, call) {
            Ok(_) => {}
            Err(_) => unreachable!(),
        }
    }

    // A message came. A Get and a Flush keep the first.
    pub(crate) fn receive(&mut self, stream: u32, message: Bytes)
        ensures received { call_on self.new stream ≡ option_map (receiving message) (call_on self.old stream) }
        ensures others { AreSameElsewhere stream self.old self.new }
    {
        match self.map.get_mut(&stream) {
            None => {}
            Some(call) => receive(call, message),
        }
    }

    // Takes a Get or a Flush out whose client had more to say.
    pub(crate) fn take_receiving(&mut self, stream: u32) -> Option<(Method, Option<Bytes>, bool)>
        ensures call { result ≡ received_by (call_on self.old stream) }
        ensures taken { IfSome result (λ _. call_on self.new stream ≡ None) }
        ensures kept { IfNone result (self.new ≡ self.old) }
        ensures others { AreSameElsewhere stream self.old self.new }
    {
        if !self.is_receiving(stream) {
            return None;
        }
        match self.map.remove(&stream) {
            Some(OpenCall::Receives(method, first, is_more)) => Some((method, first, is_more)),
            _ => unreachable!(),
        }
    }

    fn is_receiving(&self, stream: u32) -> bool
        ensures { result ≡ is_some (received_by (call_on self.now stream)) }
    {
        match self.map.get(&stream) {
            Some(OpenCall::Receives(_, _, _)) => true,
            _ => false,
        }
    }

    // A Get whose rows were selected.
    pub(crate) fn is_responding(&self, stream: u32) -> bool
        ensures { result ≡ is_responding (call_on self.now stream) }
    {
        match self.map.get(&stream) {
            Some(OpenCall::Responds(_)) => true,
            _ => false,
        }
    }

    // Gives the next response of a Get whose rows were selected.
    pub(crate) fn give(
        &mut self,
        alloc: Global,
        setting: &Setting,
        stream: u32,
        out: &mut Step,
    ) -> Given
        requires responds { is_responding (call_on self.old stream) ≡ true }
        requires no_end { out.old.end ≡ None }
        ensures given { GivesOf setting.now result (call_on self.old stream) (call_on self.new stream) out.old out.new }
        ensures others { AreSameElsewhere stream self.old self.new }
        ensures halted { out.new.halted ≡ out.old.halted }
    {
        match self.map.get_mut(&stream) {
            None => unreachable!(),
            Some(call) => give(call, alloc, setting, out),
        }
    }

    // The client of a call ended its side. A Modify call keeps that.
    pub(crate) fn finish(&mut self, stream: u32)
        ensures finished { call_on self.new stream ≡ option_map finishing (call_on self.old stream) }
        ensures others { AreSameElsewhere stream self.old self.new }
    {
        match self.map.get_mut(&stream) {
            None => {}
            Some(call) => finish(call),
        }
    }

    // A call is over, and leaves nothing behind.
    pub(crate) fn remove(&mut self, stream: u32)
        ensures removed { call_on self.new stream ≡ None }
        ensures others { AreSameElsewhere stream self.old self.new }
        ensures fewer { IsSome (call_on self.old stream) → length self.new < length self.old }
    {
        let _ = self.map.remove(&stream);
    }
}
