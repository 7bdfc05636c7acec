ghost use Rattle.std.specs.Prelude.{◌≡◌, ◌≤◌, ◌++◌, Some, IfOk, codes};
ghost use Rattle.std.specs.Fmt.{decimal};
ghost use Rattle.std.specs.Option.{option_map};
ghost use Rattle.gribi_messages.specs.GetAndFlush.{get_request, flush_request};
ghost use Rattle.call_requests.specs.Asked as said;

use aft_entries::{Instances, Kind};
use bytes::Bytes;
use call_answers::Setting;
use gribi_messages::{
    FlushAsk, FlushRequest, GetRequest, InstanceAsk, MessageFault, decode_flush, decode_get,
};
use grpc_heads::{Status, Text};
use itoa::Buffer;
use schema_numbers::{Numbering, ValueName};
use std::alloc::{AllocError, Global};
use table_model::{FlushBy, KindAsk, Which};

/// Why the message of a Get or a Flush asks for nothing.
#[derive(Debug, Drop)]
pub enum AskFault {
    /// The call ends with this status.
    Refused(Status),
    /// There was no memory to read it.
    NoMemory,
}

// INVALID_ARGUMENT with a text.
fn invalid(text: &'static [u8]) -> Status
    ensures { result ≡ said.invalid text.now }
{
    Status {
        code: 3,
        message: Text::fixed(text),
        reason: None,
    }
}

fn bad_place(alloc: Global, place: usize) -> Result<Status, AllocError>
    ensures { IfOk result (λ status. status ≡ said.invalid (codes "bad message at " ++ decimal place)) }
{
    let mut buffer = Buffer::new();
    let mut text = Vec::from_slice(alloc, b"bad message at ")?;
    text.extend_from_slice(buffer.format(place).as_bytes())?;
    Ok(Status {
        code: 3,
        message: Text::from_bytes(Bytes::from_vec(text)?),
        reason: None,
    })
}

// What a message with a fault is answered.
fn bad_message(alloc: Global, fault: MessageFault) -> AskFault
    ensures { said.IsBadMessage result fault }
{
    let place = match fault {
        MessageFault::Wire(place, _) => place,
        MessageFault::Utf8(place) => place,
        MessageFault::NoMemory => return AskFault::NoMemory,
    };
    match bad_place(alloc, place) {
        Ok(status) => AskFault::Refused(status),
        Err(_) => AskFault::NoMemory,
    }
}

fn which_of(instances: &Instances, ask: &InstanceAsk) -> Option<Which>
    ensures { result ≡ said.which_of instances.now ask.now }
{
    match ask {
        InstanceAsk::All => Some(Which::All),
        InstanceAsk::Named(name) => match instances.find(name.as_str()) {
            None => None,
            Some(number) => Some(Which::One(number)),
        },
    }
}

// The kinds of entries of an AFT type.
fn kinds_of(n: &Numbering, aft: u64) -> Option<KindAsk>
    ensures { result ≡ said.kinds_of n.now aft }
{
    if aft == n.value(ValueName::AftAll) {
        Some(KindAsk::All)
    } else if aft == n.value(ValueName::AftIpv4) {
        Some(KindAsk::Only(Kind::V4))
    } else if aft == n.value(ValueName::AftIpv6) {
        Some(KindAsk::Only(Kind::V6))
    } else if aft == n.value(ValueName::AftMpls) {
        Some(KindAsk::Only(Kind::Label))
    } else if aft == n.value(ValueName::AftNextHop) {
        Some(KindAsk::Only(Kind::Hop))
    } else if aft == n.value(ValueName::AftNextHopGroup) {
        Some(KindAsk::Only(Kind::Group))
    } else {
        None
    }
}

fn refused(text: &'static [u8]) -> AskFault
    ensures { result ≡ AskFault.Refused (said.invalid text.now) }
{
    AskFault::Refused(invalid(text))
}

// What a Get without a fault asks for.
fn get_ask(setting: &Setting, request: &GetRequest) -> Result<(Which, KindAsk), AskFault>
    ensures { said.ReadsGet setting.now result (said.get_refusal setting.now request.now) request.now }
{
    match &request.instance {
        None => Err(refused(b"no network instance")),
        Some(ask) => match which_of(&setting.instances, ask) {
            None => Err(refused(b"unknown network instance")),
            Some(which) => match kinds_of(&setting.numbering, request.aft) {
                None => Err(refused(b"unknown AFT type")),
                Some(kinds) => Ok((which, kinds)),
            },
        },
    }
}

// What a Flush without a fault asks for.
fn flush_ask(setting: &Setting, request: &FlushRequest) -> Result<(FlushBy, Which), AskFault>
    ensures { said.ReadsFlush setting.now result (said.flush_refusal setting.now request.now) request.now }
{
    match &request.instance {
        None => Err(refused(b"no network instance")),
        Some(ask) => match which_of(&setting.instances, ask) {
            None => Err(refused(b"unknown network instance")),
            Some(which) => match request.election {
                None => Err(refused(b"no election")),
                Some(FlushAsk::Override) => Ok((FlushBy::Override, which)),
                Some(FlushAsk::Id(id)) => {
                    if id == 0 {
                        Err(refused(b"election id is zero"))
                    } else {
                        Ok((FlushBy::Id(id), which))
                    }
                }
            },
        },
    }
}

/// What the message of a Get call asks for: the instances and the kinds of entries. It is refused exactly where it has a fault,
/// names no network instance, an unknown one, or an AFT type that isn't in the table, for the first of these.
#[tactic(auto, unfolding(crate::specs::Asked::get_message_refusal))]
pub fn read_get(
    alloc: Global,
    setting: &Setting,
    message: &[u8],
) -> Result<(Which, KindAsk), AskFault>
    ensures { said.ReadsGet setting.now result (said.get_message_refusal setting.now message.now) (get_request setting.now.numbering message.now) }
{
    match decode_get(alloc, &setting.numbering, message) {
        Err(fault) => Err(bad_message(alloc, fault)),
        Ok(request) => get_ask(setting, &request),
    }
}

/// What the message of a Flush call asks for: by what it is allowed, and the instances. It is refused exactly where it has a
/// fault, names no network instance or an unknown one, has no election, or the election id 0, for the first of these.
#[tactic(auto, unfolding(crate::specs::Asked::flush_message_refusal))]
pub fn read_flush(
    alloc: Global,
    setting: &Setting,
    message: &[u8],
) -> Result<(FlushBy, Which), AskFault>
    ensures { said.ReadsFlush setting.now result (said.flush_message_refusal setting.now message.now) (flush_request setting.now.numbering message.now) }
{
    match decode_flush(alloc, &setting.numbering, message) {
        Err(fault) => Err(bad_message(alloc, fault)),
        Ok(request) => flush_ask(setting, &request),
    }
}
