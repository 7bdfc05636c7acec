ghost use Rattle.std.specs.Prelude.{◌≡◌, IfOk, Some};
ghost use Rattle.script_lang.specs.Lines.{line_words};
ghost use Rattle.line_requests.specs.Asks as spec;

use crate::ask::LineAsk;
use crate::number::wide;
use crate::operation::operate_ask;
use crate::words::{is, name};
use gribi_messages::{
    FlushAsk, FlushRequest, GetRequest, InstanceAsk, ModifyRequest, RawOperations, RawParams,
};
use schema_numbers::{Numbering, ValueName};
use script_lang::{Line, Words};
use std::alloc::{AllocError, Global};

// The words behind the line's first two.
fn behind_call(line: &Line) -> Words<'_>
    ensures { result ≡ spec.behind_call (line_words line.now) }
{
    let mut words = line.words();
    let _ = words.next();
    let _ = words.next();
    words
}

fn params_of(n: &Numbering, redundancy: &str, persistence: &str, ack: &str) -> RawParams
    ensures { result ≡ spec.params_of n.now redundancy.now persistence.now ack.now }
{
    let redundancy = if is("single-primary", redundancy) {
        n.value(ValueName::RedundancySinglePrimary)
    } else {
        n.value(ValueName::RedundancyAllPrimary)
    };
    let persistence = if is("preserve", persistence) {
        n.value(ValueName::PersistencePreserve)
    } else {
        n.value(ValueName::PersistenceDelete)
    };
    let ack = if is("rib-and-fib-ack", ack) {
        n.value(ValueName::AckTypeRibAndFibAck)
    } else {
        n.value(ValueName::AckTypeRibAck)
    };
    RawParams {
        redundancy,
        persistence,
        ack,
    }
}

fn params_ask(alloc: Global, n: &Numbering, words: &mut Words<'_>) -> LineAsk
    ensures { result ≡ spec.params_ask n.now words.old }
{
    let Some(redundancy) = words.next() else {
        return LineAsk::Nothing;
    };
    let Some(persistence) = words.next() else {
        return LineAsk::Nothing;
    };
    let Some(ack) = words.next() else {
        return LineAsk::Nothing;
    };
    LineAsk::Send(ModifyRequest {
        operations: RawOperations::new(alloc),
        params: Some(params_of(n, redundancy, persistence, ack)),
        election: None,
    })
}

fn elect_ask(alloc: Global, words: &mut Words<'_>) -> LineAsk
    ensures { result ≡ spec.elect_ask words.old }
{
    let Some(id) = words.next() else {
        return LineAsk::Nothing;
    };
    LineAsk::Send(ModifyRequest {
        operations: RawOperations::new(alloc),
        params: None,
        election: Some(wide(id)),
    })
}

fn operate_by(
    alloc: Global,
    last: Option<u128>,
    words: &mut Words<'_>,
) -> Result<LineAsk, AllocError>
    ensures { IfOk result (λ ask. ask ≡ spec.operate_by last words.old) }
{
    let Some(first) = words.next() else {
        return Ok(LineAsk::Nothing);
    };
    let Some(_call) = words.next() else {
        return Ok(LineAsk::Nothing);
    };
    operate_ask(alloc, last, first, words)
}

fn close_by(words: &mut Words<'_>) -> LineAsk
    ensures { result ≡ spec.close_by words.old }
{
    let Some(first) = words.next() else {
        return LineAsk::Nothing;
    };
    if is("finish", first) {
        LineAsk::Finish
    } else {
        LineAsk::Reset
    }
}

fn instance_of(alloc: Global, word: &str) -> Result<InstanceAsk, AllocError>
    ensures { IfOk result (λ ask. ask ≡ spec.instance_of word.now) }
{
    if is("*", word) {
        Ok(InstanceAsk::All)
    } else {
        Ok(InstanceAsk::Named(name(alloc, word)?))
    }
}

#[tactic(auto, unfolding(crate::specs::Asks::aft_of))]
fn aft_of(n: &Numbering, kind: &str) -> u64
    ensures { result ≡ spec.aft_of n.now kind.now }
{
    if is("ipv4", kind) {
        n.value(ValueName::AftIpv4)
    } else if is("ipv6", kind) {
        n.value(ValueName::AftIpv6)
    } else if is("mpls", kind) {
        n.value(ValueName::AftMpls)
    } else if is("next-hop", kind) {
        n.value(ValueName::AftNextHop)
    } else if is("group", kind) {
        n.value(ValueName::AftNextHopGroup)
    } else {
        n.value(ValueName::AftAll)
    }
}

fn get_ask(alloc: Global, n: &Numbering, words: &mut Words<'_>) -> Result<LineAsk, AllocError>
    ensures { IfOk result (λ ask. ask ≡ spec.get_ask n.now words.old) }
{
    let Some(instance) = words.next() else {
        return Ok(LineAsk::Nothing);
    };
    let Some(kind) = words.next() else {
        return Ok(LineAsk::Nothing);
    };
    let instance = instance_of(alloc, instance)?;
    Ok(LineAsk::Get(GetRequest {
        instance: Some(instance),
        aft: aft_of(n, kind),
    }))
}

fn flush_of(alloc: Global, election: FlushAsk, instance: &str) -> Result<FlushRequest, AllocError>
    ensures { IfOk result (λ r. r ≡ record { election = Some election; instance = Some (spec.instance_of instance.now) }) }
{
    let instance = instance_of(alloc, instance)?;
    Ok(FlushRequest {
        election: Some(election),
        instance: Some(instance),
    })
}

fn flush_ask(alloc: Global, words: &mut Words<'_>) -> Result<LineAsk, AllocError>
    ensures { IfOk result (λ ask. ask ≡ spec.flush_ask words.old) }
{
    let Some(_way) = words.next() else {
        return Ok(LineAsk::Nothing);
    };
    let Some(second) = words.next() else {
        return Ok(LineAsk::Nothing);
    };
    match words.next() {
        None => Ok(LineAsk::Flush(flush_of(alloc, FlushAsk::Override, second)?)),
        Some(third) => {
            let id = FlushAsk::Id(wide(second));
            Ok(LineAsk::Flush(flush_of(alloc, id, third)?))
        }
    }
}

/// What a line asks under this numbering, on a call that sent this election id last. Fails only for want of memory.
pub fn read_ask(
    alloc: Global,
    n: &Numbering,
    last: Option<u128>,
    line: &Line,
) -> Result<LineAsk, AllocError>
    ensures { IfOk result (λ ask. ask ≡ spec.asked n.now last line.now) }
{
    match line {
        Line::Modify(_) => Ok(LineAsk::Modify),
        Line::Params(_) => Ok(params_ask(alloc, n, &mut behind_call(line))),
        Line::Elect(_) => Ok(elect_ask(alloc, &mut behind_call(line))),
        Line::Operate(text) => operate_by(alloc, last, &mut text.words()),
        Line::Close(text) => Ok(close_by(&mut text.words())),
        Line::Get(_) => get_ask(alloc, n, &mut behind_call(line)),
        Line::Flush(_) => flush_ask(alloc, &mut behind_call(line)),
        _ => Ok(LineAsk::Nothing),
    }
}
