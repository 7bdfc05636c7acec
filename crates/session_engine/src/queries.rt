//! What is asked of all calls at once.
ghost use Rattle.std.specs.Prelude.{◌≡◌, ◌≤◌, ◌↔◌, ℕ, Bool, true, false, List, Option, Some, None, IfSome, IfNone, IsSome, IsTrue, is_some};
ghost use Rattle.std.specs.List.{All};
ghost use Rattle.std.specs.Ordering.{nat_cmp};
ghost use Rattle.std.specs.List.Sorted.{IsStrictlySortedBy};
ghost use Rattle.std.specs.Map.{keys_of};
ghost use Rattle.std.specs.declared.ops.Bound.TheVariants.{Included, Unbounded};
ghost use Rattle.std.specs.BTreeMap.Range.{entries_between};
ghost use Rattle.session_engine.specs.Queries.{call_on, first_where, is_asking, is_responding, is_session, oldest_behind, oldest_of, session_in};

use crate::engine::SessionEngine;
use crate::open_calls::{OpenCall, OpenCalls};
use std::collections::BTreeMap;

// A Modify call with a session.
fn has_session(call: &OpenCall) -> bool
    ensures { result ≡ is_session call.now }
{
    match call {
        OpenCall::Modifies(_, _) => true,
        _ => false,
    }
}

// A Get whose rows were selected.
fn is_selecting(call: &OpenCall) -> bool
    ensures { result ≡ is_responding (Some call.now) }
{
    match call {
        OpenCall::Responds(_) => true,
        _ => false,
    }
}

// Its client may say more.
fn may_say_more(call: &OpenCall) -> bool
    ensures { result ≡ is_asking (Some call.now) }
{
    match call {
        OpenCall::Modifies(_, is_finished) => !*is_finished,
        OpenCall::Receives(_, _, _) => true,
        OpenCall::Responds(_) => false,
    }
}

// Of the oldest session so far and a call, the older session.
fn older(best: Option<(u32, u64)>, stream: u32, call: &OpenCall) -> Option<(u32, u64)>
    ensures { result ≡ oldest_behind best stream call.now }
{
    match call {
        OpenCall::Modifies(session, _) => match best {
            None => Some((stream, *session)),
            Some(other) => {
                if *session < other.1 {
                    Some((stream, *session))
                } else {
                    Some(other)
                }
            }
        },
        _ => best,
    }
}

// The oldest session of a Modify call, with its stream.
fn oldest_in(map: &BTreeMap<u32, OpenCall>) -> Option<(u32, u64)>
    ensures oldest { result ≡ oldest_of None map.now.entries }
    ensures held { All (λ e. call_on map.now.entries e.0 ≡ Some e.1) map.now.entries }
{
    let mut best = None;
    'calls: for (stream, call) in map.iter() {
        best = older(best, *stream, call);
    }
    best
}

// The first stream of a Get that is still to be given responses.
fn first_selecting(map: &BTreeMap<u32, OpenCall>) -> Option<u32>
    ensures first { result ≡ first_where (λ call. is_responding (Some call)) map.now.entries }
    ensures held { All (λ e. call_on map.now.entries e.0 ≡ Some e.1) map.now.entries }
{
    'calls: for (stream, call) in map.iter() {
        if is_selecting(call) {
            return Some(*stream);
        }
    }
    None
}

// The first stream of a call whose client may say more.
fn first_asking(map: &BTreeMap<u32, OpenCall>) -> Option<u32>
    ensures first { result ≡ first_where (λ call. is_asking (Some call)) map.now.entries }
    ensures held { All (λ e. call_on map.now.entries e.0 ≡ Some e.1) map.now.entries }
{
    'calls: for (stream, call) in map.iter() {
        if may_say_more(call) {
            return Some(*stream);
        }
    }
    None
}

// The first stream, at least `from`, of a Modify call with a session.
fn first_session(map: &BTreeMap<u32, OpenCall>, from: u32) -> Option<u32>
    ensures first { result ≡ first_where is_session (entries_between nat_cmp (Included from) Unbounded map.now.entries) }
    ensures held { All (λ e. (from ≤ e.0) × (call_on map.now.entries e.0 ≡ Some e.1)) (entries_between nat_cmp (Included from) Unbounded map.now.entries) }
    ensures ordered { IsStrictlySortedBy nat_cmp (keys_of map.now.entries) }
{
    'calls: for (stream, call) in map.range(from..) {
        if has_session(call) {
            return Some(*stream);
        }
    }
    None
}

fn has_none(map: &BTreeMap<u32, OpenCall>) -> bool
    ensures { IsTrue result ↔ ((id : ℕ) → call_on map.now.entries id ≡ None) }
{
    match map.first_key_value() {
        None => true,
        Some(_) => false,
    }
}

impl OpenCalls {
    fn oldest_pair(&self) -> Option<(u32, u64)>
        ensures oldest { result ≡ oldest_of None self.now }
        ensures held { All (λ e. call_on self.now e.0 ≡ Some e.1) self.now }
    {
        oldest_in(&self.map)
    }

    fn first_selecting(&self) -> Option<u32>
        ensures first { result ≡ first_where (λ call. is_responding (Some call)) self.now }
        ensures held { All (λ e. call_on self.now e.0 ≡ Some e.1) self.now }
    {
        first_selecting(&self.map)
    }

    fn first_asking(&self) -> Option<u32>
        ensures first { result ≡ first_where (λ call. is_asking (Some call)) self.now }
        ensures held { All (λ e. call_on self.now e.0 ≡ Some e.1) self.now }
    {
        first_asking(&self.map)
    }

    fn first_session(&self, from: u32) -> Option<u32>
        ensures first { result ≡ first_where is_session (entries_between nat_cmp (Included from) Unbounded self.now) }
        ensures held { All (λ e. (from ≤ e.0) × (call_on self.now e.0 ≡ Some e.1)) (entries_between nat_cmp (Included from) Unbounded self.now) }
        ensures ordered { IsStrictlySortedBy nat_cmp (keys_of self.now) }
    {
        first_session(&self.map, from)
    }

    fn is_empty(&self) -> bool
        ensures { IsTrue result ↔ ((id : ℕ) → call_on self.now id ≡ None) }
    {
        has_none(&self.map)
    }
}

impl SessionEngine {
    /// The least stream, at least `from`, of a Modify call with a session.
    pub fn next_session(&self, from: u32) -> Option<u32>
        ensures found { IfSome result (λ k. (from ≤ k) × IsSome (session_in (call_on self.now k))) }
        ensures first { (id : ℕ) → from ≤ id → IsSome (session_in (call_on self.now id)) → (k : ℕ) × (result ≡ Some k) × (k ≤ id) }
    {
        self.calls.first_session(from)
    }

    /// The stream of the Modify call whose session is the oldest, which has the least number.
    pub fn oldest_session(&self) -> Option<u32>
        ensures found { IfSome result (λ k. IsSome (session_in (call_on self.now k))) }
        ensures oldest { (id session : ℕ) (fin : Bool) → session_in (call_on self.now id) ≡ Some (session, fin)
            → (k n : ℕ) × (b : Bool) × (result ≡ Some k) × (session_in (call_on self.now k) ≡ Some (n, b)) × (n ≤ session) }
    {
        match self.calls.oldest_pair() {
            None => None,
            Some(pair) => Some(pair.0),
        }
    }

    /// A stream of a Get that is still to be given responses.
    pub fn next_selecting(&self) -> Option<u32>
        ensures found { IfSome result (λ k. is_responding (call_on self.now k) ≡ true) }
        ensures none { IfNone result ((id : ℕ) → is_responding (call_on self.now id) ≡ false) }
    {
        self.calls.first_selecting()
    }

    /// Whether no call is open.
    pub fn is_idle(&self) -> bool
        ensures { IsTrue result ↔ ((id : ℕ) → call_on self.now id ≡ None) }
    {
        self.calls.is_empty()
    }

    /// Whether a client may say more on some call.
    pub fn is_some_asking(&self) -> bool
        ensures asking { result ≡ true → (id : ℕ) × (is_asking (call_on self.now id) ≡ true) }
        ensures none { result ≡ false → (id : ℕ) → is_asking (call_on self.now id) ≡ false }
    {
        self.calls.first_asking().is_some()
    }
}
