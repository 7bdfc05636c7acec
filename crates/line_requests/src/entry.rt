ghost use Rattle.std.specs.Prelude.{◌≡◌, IfOk, codes};
ghost use Rattle.std.specs.Option.{option_map};
ghost use Rattle.script_lang.specs.Forms.{rest_at};
ghost use Rattle.line_requests.specs.Numbers.{cut};
ghost use Rattle.line_requests.specs.Entries as spec;

use crate::lists::{comma_halves, labels, members};
use crate::number::narrow;
use crate::words::{is, name, number_option, option, text_option};
use aft_entries::{Name, RawEntry, RawGroup, RawHop, RawLabels, RawMembers, RawRoute};
use script_lang::Words;
use std::alloc::{AllocError, Global};

fn labels_option(alloc: Global, words: &mut Words<'_>) -> Result<RawLabels, AllocError>
    ensures labels { IfOk result (λ labels. labels ≡ spec.labels_at words.old) }
    ensures rest { words.new ≡ rest_at (codes "push=") words.old }
{
    match option("push=", words) {
        None => Ok(RawLabels::new(alloc)),
        Some(text) => labels(alloc, text),
    }
}

fn members_option(alloc: Global, words: &mut Words<'_>) -> Result<RawMembers, AllocError>
    ensures members { IfOk result (λ members. members ≡ spec.members_at words.old) }
    ensures rest { words.new ≡ rest_at (codes "hops=") words.old }
{
    match option("hops=", words) {
        None => Ok(RawMembers::new(alloc)),
        Some(text) => members(alloc, text),
    }
}

// The two ends of a tunnel.
#[derive(Drop)]
struct Tunnel {
    source: Option<Name>,
    target: Option<Name>,
}

fn ends(alloc: Global, text: &str) -> Result<Tunnel, AllocError>
    ensures source { IfOk result (λ t. t.source ≡ option_map spec.first_of (cut 44 text.now)) }
    ensures target { IfOk result (λ t. t.target ≡ option_map spec.second_of (cut 44 text.now)) }
{
    match comma_halves(text) {
        None => Ok(Tunnel {
            source: None,
            target: None,
        }),
        Some((source, target)) => Ok(Tunnel {
            source: Some(name(alloc, source)?),
            target: Some(name(alloc, target)?),
        }),
    }
}

fn tunnel_option(alloc: Global, words: &mut Words<'_>) -> Result<Tunnel, AllocError>
    ensures source { IfOk result (λ t. t.source ≡ option_map spec.first_of (spec.tunnel words.old)) }
    ensures target { IfOk result (λ t. t.target ≡ option_map spec.second_of (spec.tunnel words.old)) }
    ensures rest { words.new ≡ rest_at (codes "ipip=") words.old }
{
    match option("ipip=", words) {
        None => Ok(Tunnel {
            source: None,
            target: None,
        }),
        Some(text) => ends(alloc, text),
    }
}

#[tactic(auto, unfolding(crate::specs::Entries::hop, crate::specs::Entries::behind_hop))]
fn hop(alloc: Global, words: &mut Words<'_>) -> Result<RawHop, AllocError>
    ensures hop { IfOk result (λ hop. hop ≡ spec.hop words.old) }
    ensures rest { IfOk result (λ _. words.new ≡ spec.behind_hop words.old) }
{
    let ip = text_option(alloc, "ip=", words)?;
    let mac = text_option(alloc, "mac=", words)?;
    let interface = text_option(alloc, "interface=", words)?;
    let subinterface = number_option("subinterface=", words);
    let Tunnel { source, target } = tunnel_option(alloc, words)?;
    let push = labels_option(alloc, words)?;
    Ok(RawHop {
        ip,
        mac,
        interface,
        subinterface,
        source,
        target,
        push,
    })
}

#[tactic(auto, unfolding(crate::specs::Entries::group, crate::specs::Entries::behind_group))]
fn group(alloc: Global, words: &mut Words<'_>) -> Result<RawGroup, AllocError>
    ensures group { IfOk result (λ group. group ≡ spec.group words.old) }
    ensures rest { IfOk result (λ _. words.new ≡ spec.behind_group words.old) }
{
    let members = members_option(alloc, words)?;
    let backup = number_option("backup=", words);
    Ok(RawGroup { members, backup })
}

#[tactic(auto, unfolding(crate::specs::Entries::route, crate::specs::Entries::behind_route))]
fn route(alloc: Global, words: &mut Words<'_>) -> Result<RawRoute, AllocError>
    ensures route { IfOk result (λ route. route ≡ spec.route words.old) }
    ensures rest { IfOk result (λ _. words.new ≡ spec.behind_route words.old) }
{
    let group = number_option("group=", words);
    let instance = text_option(alloc, "group-instance=", words)?;
    Ok(RawRoute { group, instance })
}

/// The entry of this kind and key, with what the words behind them say.
#[tactic(auto, unfolding(crate::specs::Entries::entry_of, crate::specs::Entries::behind_entry))]
pub fn entry_of(
    alloc: Global,
    kind: &str,
    key: &str,
    words: &mut Words<'_>,
) -> Result<RawEntry, AllocError>
    ensures entry { IfOk result (λ entry. entry ≡ spec.entry_of kind.now key.now words.old) }
    ensures rest { IfOk result (λ _. words.new ≡ spec.behind_entry kind.now words.old) }
{
    if is("next-hop", kind) {
        Ok(RawEntry::Hop(narrow(key), hop(alloc, words)?))
    } else if is("group", kind) {
        Ok(RawEntry::Group(narrow(key), group(alloc, words)?))
    } else if is("ipv4", kind) {
        let prefix = name(alloc, key)?;
        Ok(RawEntry::V4(prefix, route(alloc, words)?))
    } else if is("ipv6", kind) {
        let prefix = name(alloc, key)?;
        Ok(RawEntry::V6(prefix, route(alloc, words)?))
    } else {
        Ok(RawEntry::Label(Some(narrow(key)), route(alloc, words)?))
    }
}
