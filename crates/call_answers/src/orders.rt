ghost use Rattle.std.specs.Prelude.{◌≡◌, map, IfOk};
ghost use Rattle.std.specs.Option.{option_map};
ghost use Rattle.proto_schema.specs.declared.schema.MessageKind.TheVariants as message_kind;
ghost use Rattle.proto_schema.specs.Legal.{first_fault};
ghost use Rattle.aft_messages.specs.Decodes.{Decodes};
ghost use Rattle.aft_entries.specs.IndexOnly.{index_only_operation as index_only_hop_operation};
ghost use Rattle.gribi_messages.specs.ScannedFields.{operation_of_scanned};
ghost use Rattle.call_answers.specs.Orders as said;

use aft_entries::{Instances, RawOperation, check_entry, check_index_only_hop};
use gribi_messages::{
    IndexOnlyHop, MessageFault, OperationReader, RawOperations, RawParams, ScannedFields,
    decode_modify, header_of, index_only_hop, scan_operation,
    scanned_operation as scanned_raw_operation,
};
use schema_numbers::{Numbering, ValueName};
use std::alloc::{AllocError, Global};
use std::marker::Model;
use table_model::{AckType, AskedParams, Operation, Persistence, Redundancy};
use vec_list::VecList;

/// What requests are read with: the numbers of the messages' fields, and the names of the network instances.
#[derive(Drop)]
pub struct Setting {
    /// The numbers of the messages' fields and of their enumerators.
    pub numbering: Numbering,
    /// The names of the network instances, by whose places the table knows them.
    pub instances: Instances,
}

/// Operations, in their order. Contracts see the list.
pub type Operations = VecList<Operation>;

/// What a request orders: session parameters, an election id, and operations, in this order.
#[derive(Drop)]
pub struct Orders {
    /// The session parameters that are asked for, each None where its number names none.
    pub params: Option<AskedParams>,
    /// The election id that is announced.
    pub election: Option<u128>,
    /// The operations.
    pub operations: Operations,
}

fn redundancy_of(n: &Numbering, number: u64) -> Option<Redundancy>
    ensures { result ≡ said.redundancy_of n.now number }
{
    if number == n.value(ValueName::RedundancyAllPrimary) {
        Some(Redundancy::AllPrimary)
    } else if number == n.value(ValueName::RedundancySinglePrimary) {
        Some(Redundancy::SinglePrimary)
    } else {
        None
    }
}

fn persistence_of(n: &Numbering, number: u64) -> Option<Persistence>
    ensures { result ≡ said.persistence_of n.now number }
{
    if number == n.value(ValueName::PersistenceDelete) {
        Some(Persistence::Delete)
    } else if number == n.value(ValueName::PersistencePreserve) {
        Some(Persistence::Preserve)
    } else {
        None
    }
}

fn ack_of(n: &Numbering, number: u64) -> Option<AckType>
    ensures { result ≡ said.ack_of n.now number }
{
    if number == n.value(ValueName::AckTypeRibAck) {
        Some(AckType::Rib)
    } else if number == n.value(ValueName::AckTypeRibAndFibAck) {
        Some(AckType::RibAndFib)
    } else {
        None
    }
}

fn asked_params_of(n: &Numbering, raw: Option<RawParams>) -> Option<AskedParams>
    ensures { result ≡ option_map (said.asked_params_of n.now) raw }
{
    match raw {
        None => None,
        Some(raw) => Some(AskedParams {
            redundancy: redundancy_of(n, raw.redundancy),
            persistence: persistence_of(n, raw.persistence),
            ack: ack_of(n, raw.ack),
        }),
    }
}

#[inline(always)]
fn operation_of(
    alloc: Global,
    instances: &Instances,
    raw: RawOperation,
) -> Result<Operation, AllocError>
    ensures { IfOk result (λ operation. operation ≡ said.operation_of instances.now raw) }
{
    let id = raw.id;
    let election = raw.election;
    match check_entry(alloc, instances, raw) {
        Ok(ask) => Ok(Operation { id, election, ask }),
        Err(lack) => Err(lack),
    }
}

fn operations_of(
    alloc: Global,
    instances: &Instances,
    raw: RawOperations,
) -> Result<Operations, AllocError>
    ensures { IfOk result (λ all. all ≡ map (said.operation_of instances.now) raw) }
{
    let raw = raw.into_vec();
    let mut items = Vec::with_capacity(alloc, raw.len())?;
    for operation in raw {
        items.push(operation_of(alloc, instances, operation)?)?;
    }
    Ok(Operations::from_vec(items))
}

/// What a ModifyRequest orders, or the first fault of its bytes with its place. Each operation is checked as far as it stands by
/// itself, and one that can't be done bears the reason.
#[tactic(auto, unfolding(crate::specs::Orders::orders_of))]
pub fn read_orders(alloc: Global, setting: &Setting, message: &[u8]) -> Result<Orders, MessageFault>
    ensures { Decodes result (first_fault setting.now.numbering message_kind.ModifyRequest message.now) (said.orders_of setting.now message.now) }
{
    match decode_modify(alloc, &setting.numbering, message) {
        Err(fault) => Err(fault),
        Ok(request) => {
            let params = asked_params_of(&setting.numbering, request.params);
            let election = request.election;
            match operations_of(alloc, &setting.instances, request.operations) {
                Err(_) => Err(MessageFault::NoMemory),
                Ok(operations) => Ok(Orders {
                    params,
                    election,
                    operations,
                }),
            }
        }
    }
}

// What was heard of an operation orders.
fn scanned_operation(
    alloc: Global,
    setting: &Setting,
    scanned: &ScannedFields<'_>,
) -> Result<Operation, AllocError>
    ensures { IfOk result (λ operation. operation ≡ said.operation_of setting.now.instances (operation_of_scanned setting.now.numbering scanned.now)) }
{
    match scanned_raw_operation(alloc, &setting.numbering, scanned) {
        Ok(raw) => operation_of(alloc, &setting.instances, raw),
        Err(lack) => Err(lack),
    }
}

// The same of a next hop of which nothing is said but its index.
#[inline(always)]
fn index_only_operation(alloc: Global, instances: &Instances, bare: &IndexOnlyHop<'_>) -> Operation
    ensures { result ≡ said.operation_of instances.now
        (index_only_hop_operation bare.now.id bare.now.instance.now bare.now.op bare.now.index bare.now.election) }
{
    Operation {
        id: bare.id,
        election: bare.election,
        ask: check_index_only_hop(alloc, instances, bare.op, bare.instance, bare.index),
    }
}

/// What the bytes of an operation order, checked as far as it stands by itself. They are to have no fault. The error is want of
/// memory.
#[inline(always)]
pub fn read_operation(
    alloc: Global,
    setting: &Setting,
    bytes: &[u8],
) -> Result<Operation, AllocError>
    ensures { IfOk result (λ operation. operation ≡ said.operation_at setting.now bytes.now) }
{
    let n = &setting.numbering;
    match scan_operation(alloc, n, bytes) {
        Err(lack) => Err(lack),
        Ok(scanned) => match index_only_hop(n, &scanned) {
            Some(bare) => Ok(index_only_operation(alloc, &setting.instances, &bare)),
            None => scanned_operation(alloc, setting, &scanned),
        },
    }
}

/// The session parameters that a ModifyRequest asks for, and its election id: what it orders before its operations. Its bytes are
/// to have no fault. The error is want of memory.
#[tactic(auto, unfolding(crate::specs::Orders::orders_of))]
pub fn read_header(
    alloc: Global,
    setting: &Setting,
    message: &[u8],
) -> Result<(Option<AskedParams>, Option<u128>), AllocError>
    ensures params { IfOk result (λ asks. asks.0 ≡ (said.orders_of setting.now message.now).params) }
    ensures election { IfOk result (λ asks. asks.1 ≡ (said.orders_of setting.now message.now).election) }
{
    let n = &setting.numbering;
    let (params, election) = header_of(alloc, n, message)?;
    Ok((asked_params_of(n, params), election))
}

/// The operations of a ModifyRequest, to be read one after another by [`read_operation`], so that none takes memory before its turn.
#[inline(always)]
pub fn operations_in<'a>(setting: &Setting, message: &'a [u8]) -> OperationReader<'a>
    ensures { map (said.operation_at setting.now) result ≡ (said.orders_of setting.now message.now).operations }
{
    OperationReader::new(&setting.numbering, message)
}
