//! Requests that are cut off before their first message is whole, and how many more may be.
ghost use Rattle.std.specs.Prelude.{◌≡◌, ◌≤◌, ◌<◌, ◌+◌, ◌==◌, nat_lt, min, slice_get, true, false, [], OnOk, OnErr};
ghost use Rattle.std.specs.List.{position, position_or_len};
ghost use Rattle.std.specs.Vec.{vec_capacity, vec_len};
ghost use Rattle.h2_streams.specs.Live.{Rises};
ghost use Rattle.h2_conn.specs.Watching.{asked_on, asked_behind, is_whole, cut_on, cut_if, over_on, without, placed, replaced, taken_on, ended_if, asked_with, word_with};

use crate::asked::Asked;
use h2_streams::numbered;
use std::alloc::{AllocError, Global};
use std::marker::Model;

/// The number so far with as many of the bytes as it still lacks.
#[tactic(auto, using(std::proofs::lemmas::List::take_min))]
fn word_with(word: u64, count: u32, bytes: &[u8]) -> u64
    ensures { result ≡ word_with word count bytes.now }
{
    let n = 5usize.saturating_sub(count as usize).min(bytes.len());
    let (front, _) = bytes.split_at(n);
    front.iter().fold(
        word,
        |word: u64, byte| word.saturating_mul(256).saturating_add(u64::from(*byte)),
    )
}

fn count_with(count: u32, more: usize) -> u32
    ensures { result ≡ min (count + more) 4194309 }
{
    (u64::from(count) + (more as u64).min(4_194_309)).min(4_194_309) as u32
}

fn next_of(id: u32, asked: Option<Asked>, bytes: &[u8]) -> Asked
    ensures { result ≡ asked_with id bytes.now asked }
{
    match asked {
        Some(asked) => Asked {
            id,
            word: word_with(asked.word, asked.count, bytes),
            count: count_with(asked.count, bytes.len()),
        },
        None => Asked {
            id,
            word: word_with(0, 0, bytes),
            count: count_with(0, bytes.len()),
        },
    }
}

fn remove(asked: &mut Vec<Asked>, id: u32)
    ensures items { asked.new.items ≡ without id asked.old.items }
    ensures bound { vec_len asked.new ≤ vec_len asked.old }
    ensures capacity { vec_capacity asked.new ≡ vec_capacity asked.old }
{
    asked.retain(|asked| asked.id != id);
}

/// The request that stands at this place.
fn request_at(asked: &[Asked], place: usize) -> Option<Asked>
    ensures { result ≡ slice_get asked.now place }
{
    if place < asked.len() {
        let request = &asked[place];
        Some(*request)
    } else {
        None
    }
}

fn first_above(asked: &[Asked], id: u32) -> Option<usize>
    ensures { result ≡ position (λ a. nat_lt id a.id) asked.now }
{
    asked.iter().position(|asked| id < asked.id)
}

/// Where a new request goes.
fn gap(asked: &[Asked], id: u32) -> usize
    ensures { result ≡ position_or_len (λ a. nat_lt id a.id) asked.now }
{
    match first_above(asked, id) {
        Some(place) => place,
        None => asked.len(),
    }
}

/// Adds a new request. Without memory nothing changes.
fn insert(asked: &mut Vec<Asked>, id: u32, new: Asked) -> Result<(), AllocError>
    ensures ok { OnOk result (asked.new.items ≡ placed id new asked.old.items) }
    ensures err { OnErr result (asked.new.items ≡ asked.old.items) }
{
    let place = gap(asked.as_slice(), id);
    asked.insert(place, new)?;
    Ok(())
}

/// Puts a request in the place of the one with this id, which stands at this place.
fn replace(asked: &mut [Asked], place: usize, id: u32, new: Asked)
    requires { place ≡ position_or_len (λ a. a.id == id) asked.old }
    ensures { asked.new ≡ replaced id new asked.old }
{
    if place < asked.len() {
        asked[place] = new;
    }
}

fn replace_at(asked: &mut Vec<Asked>, place: usize, id: u32, new: Asked)
    requires { place ≡ position_or_len (λ a. a.id == id) asked.old.items }
    ensures { asked.new.items ≡ replaced id new asked.old.items }
{
    replace(asked.as_mut_slice(), place, id, new);
}

/// Takes bytes that stand on the request at this place, or on a new one. Without memory nothing changes.
fn put(asked: &mut Vec<Asked>, place: usize, id: u32, bytes: &[u8]) -> Result<(), AllocError>
    requires { place ≡ position_or_len (λ a. a.id == id) asked.old.items }
    ensures ok { OnOk result (asked.new.items ≡ asked_behind id bytes.now asked.old.items) }
    ensures err { OnErr result (asked.new.items ≡ asked.old.items) }
    ensures rises { Rises (λ a. a.id) 0 4294967296 asked.old.items → Rises (λ a. a.id) 0 4294967296 asked.new.items }
{
    let old = request_at(asked.as_slice(), place);
    let next = next_of(id, old, bytes);
    match old {
        Some(_) => {
            replace_at(asked, place, id, next);
            Ok(())
        }
        None => insert(asked, id, next),
    }
}

/// The requests of live streams, and how many more may be cut off.
#[derive(Debug, Drop)]
pub struct Watch {
    left: u64,
    is_passed: bool,
    asked: Vec<Asked>,
}

impl Model for Watch {
    ghost use Rattle.h2_streams.specs.Live.{Rises};
    ghost use Rattle.h2_conn.specs.Watching.{Watch};

    ghost Value = { Watch };

    ghost view = { λ w. record { left = w.left; is_passed = w.is_passed; asked = w.asked.items } };

    ghost invariant = { λ w. Rises (λ a. a.id) 0 4294967296 w.asked.items };
}

impl Watch {
    /// A watch that allows 1,000 cuts.
    pub fn new(alloc: Global) -> Watch
        ensures { result ≡ record { left = 1000; is_passed = false; asked = [] } }
    {
        Watch {
            left: 1000,
            is_passed: false,
            asked: Vec::new(alloc),
        }
    }

    /// Whether more requests were cut off than may be.
    pub fn is_passed(&self) -> bool
        ensures { result ≡ self.now.is_passed }
    {
        self.is_passed
    }

    fn find(&self, id: u32) -> Option<Asked>
        ensures { result ≡ asked_on id self.now }
    {
        self.asked.iter().copied().find(|asked| asked.id == id)
    }

    fn has_whole(&self, id: u32) -> bool
        ensures { result ≡ is_whole (asked_on id self.now) }
    {
        match self.find(id) {
            Some(asked) => asked.count >= 5
                && asked.word <= 4_194_304
                && 5 + asked.word <= u64::from(asked.count),
            None => false,
        }
    }

    fn take_cut(&mut self, is_whole: bool)
        ensures { self.new ≡ cut_if is_whole self.old }
    {
        if !is_whole {
            self.is_passed = self.is_passed || self.left == 0;
            self.left = self.left.saturating_sub(1);
        }
    }

    /// Takes that a stream is over.
    pub fn over(&mut self, id: u32)
        ensures { self.new ≡ over_on id self.old }
    {
        remove(&mut self.asked, id);
    }

    /// Takes that a stream is reset, which cuts its request off unless the first message of it is whole.
    pub fn cut(&mut self, id: u32)
        ensures { self.new ≡ cut_on id self.old }
    {
        let is_whole = self.has_whole(id);
        self.take_cut(is_whole);
        self.over(id);
    }

    /// Takes bytes that stand on a request. Without memory nothing changes.
    pub fn take(&mut self, id: u32, bytes: &[u8]) -> Result<(), AllocError>
        ensures ok { OnOk result (self.new ≡ taken_on id bytes.now self.old) }
        ensures err { OnErr result (self.new ≡ self.old) }
    {
        let place = numbered::place_of(self.asked.as_slice(), id);
        put(&mut self.asked, place, id, bytes)
    }

    /// Takes that the client ends a call. Past 2^64 - 1 ends nothing changes.
    pub fn end(&mut self) -> Result<(), AllocError>
        ensures ok { OnOk result (self.new ≡ ended_if true self.old) }
        ensures err { OnErr result (self.new ≡ self.old) }
    {
        if self.left == u64::MAX {
            return Err(AllocError);
        }
        self.left += 1;
        Ok(())
    }

    /// Takes bytes that stand last on a request, which the client ends. Without memory, and past 2^64 - 1 ends, nothing changes.
    pub fn take_last(&mut self, id: u32, bytes: &[u8]) -> Result<(), AllocError>
        ensures ok { OnOk result (self.new ≡ ended_if true (taken_on id bytes.now self.old)) }
        ensures err { OnErr result (self.new ≡ self.old) }
    {
        if self.left == u64::MAX {
            return Err(AllocError);
        }
        self.take(id, bytes)?;
        self.left += 1;
        Ok(())
    }

    /// Whether one more end can be counted.
    pub fn can_end(&self) -> bool
        ensures { result ≡ nat_lt self.now.left 18446744073709551615 }
    {
        self.left < u64::MAX
    }

    /// Takes that the client ends a call, which can be counted.
    pub fn count_end(&mut self)
        requires { self.old.left < 18446744073709551615 }
        ensures { self.new ≡ ended_if true self.old }
    {
        self.left += 1;
    }
}
