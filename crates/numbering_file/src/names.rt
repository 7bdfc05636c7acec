ghost use Rattle.std.specs.Prelude.{◌≡◌, None};
ghost use Rattle.numbering_file.specs.Names as said;

use proto_schema::MessageKind;
use schema_numbers::{FieldName, ValueName};

/// An enumeration of gRIBI's messages.
#[derive(Clone, Copy, Debug, PartialEq, Eq)]
pub enum Enumeration {
    Op,
    Redundancy,
    Persistence,
    AckType,
    AftResultStatus,
    SessionParametersStatus,
    Aft,
    EntryStatus,
    FlushResult,
    ModifyReason,
}

// What the first of these names that is the key stands for.
macro_rules! named_among {
    ($key:ident;) => { None };
    ($key:ident; $name:literal: $item:expr, $($rest:tt)*) => {
        if $key == $name { Some($item) } else { named_among!($key; $($rest)*) }
    };
}

fn call_message(key: &str) -> Option<MessageKind>
    ensures { result ≡ said.named said.call_messages key.now }
{
    named_among!(key;
        "ModifyRequest": MessageKind::ModifyRequest,
        "AFTOperation": MessageKind::AftOperation,
        "SessionParameters": MessageKind::SessionParameters,
        "Uint128": MessageKind::Uint128,
        "ModifyResponse": MessageKind::ModifyResponse,
        "AFTResult": MessageKind::AftResult,
        "SessionParametersResult": MessageKind::SessionParametersResult,
        "GetRequest": MessageKind::GetRequest,
        "GetResponse": MessageKind::GetResponse,
        "AFTEntry": MessageKind::AftEntry,
        "FlushRequest": MessageKind::FlushRequest,
        "FlushResponse": MessageKind::FlushResponse,
    )
}

fn key_message(key: &str) -> Option<MessageKind>
    ensures { result ≡ said.named said.key_messages key.now }
{
    named_among!(key;
        "ModifyRPCErrorDetails": MessageKind::ModifyRpcErrorDetails,
        "Ipv4EntryKey": MessageKind::Ipv4EntryKey,
        "Ipv6EntryKey": MessageKind::Ipv6EntryKey,
        "LabelEntryKey": MessageKind::LabelEntryKey,
        "Ipv4Leaves": MessageKind::Ipv4Leaves,
        "Ipv6Leaves": MessageKind::Ipv6Leaves,
        "LabelLeaves": MessageKind::LabelLeaves,
    )
}

fn payload_message(key: &str) -> Option<MessageKind>
    ensures { result ≡ said.named said.payload_messages key.now }
{
    named_among!(key;
        "NextHopGroupKey": MessageKind::NextHopGroupKey,
        "NextHopGroup": MessageKind::NextHopGroup,
        "MemberKey": MessageKind::MemberKey,
        "MemberLeaves": MessageKind::MemberLeaves,
        "NextHopKey": MessageKind::NextHopKey,
        "NextHop": MessageKind::NextHop,
        "InterfaceRef": MessageKind::InterfaceRef,
        "IpInIp": MessageKind::IpInIp,
        "PushedLabel": MessageKind::PushedLabel,
    )
}

/// The message of a name.
pub(crate) fn message_named(key: &str) -> Option<MessageKind>
    ensures { result ≡ said.message_named key.now }
{
    if let Some(message) = call_message(key) {
        return Some(message);
    }
    if let Some(message) = key_message(key) {
        return Some(message);
    }
    payload_message(key)
}

fn modify_request_field(key: &str) -> Option<FieldName>
    ensures { result ≡ said.named (said.field_names MessageKind.ModifyRequest) key.now }
{
    named_among!(key;
        "operation": FieldName::ModifyRequestOperation,
        "params": FieldName::ModifyRequestParams,
        "election_id": FieldName::ModifyRequestElectionId,
    )
}

fn aft_operation_field(key: &str) -> Option<FieldName>
    ensures { result ≡ said.named (said.field_names MessageKind.AftOperation) key.now }
{
    named_among!(key;
        "id": FieldName::AftOperationId,
        "network_instance": FieldName::AftOperationNetworkInstance,
        "op": FieldName::AftOperationOp,
        "ipv4": FieldName::AftOperationIpv4,
        "ipv6": FieldName::AftOperationIpv6,
        "mpls": FieldName::AftOperationMpls,
        "next_hop_group": FieldName::AftOperationNextHopGroup,
        "next_hop": FieldName::AftOperationNextHop,
        "mac_address": FieldName::AftOperationMacAddress,
        "policy_forwarding_entry": FieldName::AftOperationPolicyForwardingEntry,
        "election_id": FieldName::AftOperationElectionId,
    )
}

fn session_parameters_field(key: &str) -> Option<FieldName>
    ensures { result ≡ said.named (said.field_names MessageKind.SessionParameters) key.now }
{
    named_among!(key;
        "redundancy": FieldName::SessionParametersRedundancy,
        "persistence": FieldName::SessionParametersPersistence,
        "ack_type": FieldName::SessionParametersAckType,
    )
}

fn uint128_field(key: &str) -> Option<FieldName>
    ensures { result ≡ said.named (said.field_names MessageKind.Uint128) key.now }
{
    named_among!(key;
        "high": FieldName::Uint128High,
        "low": FieldName::Uint128Low,
    )
}

fn modify_response_field(key: &str) -> Option<FieldName>
    ensures { result ≡ said.named (said.field_names MessageKind.ModifyResponse) key.now }
{
    named_among!(key;
        "result": FieldName::ModifyResponseResult,
        "session_params_result": FieldName::ModifyResponseSessionParamsResult,
        "election_id": FieldName::ModifyResponseElectionId,
    )
}

fn aft_result_field(key: &str) -> Option<FieldName>
    ensures { result ≡ said.named (said.field_names MessageKind.AftResult) key.now }
{
    named_among!(key;
        "id": FieldName::AftResultId,
        "status": FieldName::AftResultStatus,
        "timestamp": FieldName::AftResultTimestamp,
        "reason": FieldName::AftResultReason,
    )
}

fn session_parameters_result_field(key: &str) -> Option<FieldName>
    ensures { result ≡ said.named (said.field_names MessageKind.SessionParametersResult) key.now }
{
    named_among!(key;
        "status": FieldName::SessionParametersResultStatus,
    )
}

fn get_request_field(key: &str) -> Option<FieldName>
    ensures { result ≡ said.named (said.field_names MessageKind.GetRequest) key.now }
{
    named_among!(key;
        "name": FieldName::GetRequestName,
        "all": FieldName::GetRequestAll,
        "aft": FieldName::GetRequestAft,
    )
}

fn get_response_field(key: &str) -> Option<FieldName>
    ensures { result ≡ said.named (said.field_names MessageKind.GetResponse) key.now }
{
    named_among!(key;
        "entry": FieldName::GetResponseEntry,
    )
}

fn aft_entry_field(key: &str) -> Option<FieldName>
    ensures { result ≡ said.named (said.field_names MessageKind.AftEntry) key.now }
{
    named_among!(key;
        "network_instance": FieldName::AftEntryNetworkInstance,
        "ipv4": FieldName::AftEntryIpv4,
        "ipv6": FieldName::AftEntryIpv6,
        "mpls": FieldName::AftEntryMpls,
        "next_hop_group": FieldName::AftEntryNextHopGroup,
        "next_hop": FieldName::AftEntryNextHop,
        "rib_status": FieldName::AftEntryRibStatus,
        "fib_status": FieldName::AftEntryFibStatus,
    )
}

fn flush_request_field(key: &str) -> Option<FieldName>
    ensures { result ≡ said.named (said.field_names MessageKind.FlushRequest) key.now }
{
    named_among!(key;
        "id": FieldName::FlushRequestId,
        "override": FieldName::FlushRequestOverride,
        "name": FieldName::FlushRequestName,
        "all": FieldName::FlushRequestAll,
    )
}

fn flush_response_field(key: &str) -> Option<FieldName>
    ensures { result ≡ said.named (said.field_names MessageKind.FlushResponse) key.now }
{
    named_among!(key;
        "timestamp": FieldName::FlushResponseTimestamp,
        "result": FieldName::FlushResponseResult,
    )
}

fn modify_rpc_error_details_field(key: &str) -> Option<FieldName>
    ensures { result ≡ said.named (said.field_names MessageKind.ModifyRpcErrorDetails) key.now }
{
    named_among!(key;
        "reason": FieldName::ModifyRpcErrorDetailsReason,
    )
}

fn ipv4_entry_key_field(key: &str) -> Option<FieldName>
    ensures { result ≡ said.named (said.field_names MessageKind.Ipv4EntryKey) key.now }
{
    named_among!(key;
        "prefix": FieldName::Ipv4EntryKeyPrefix,
        "entry": FieldName::Ipv4EntryKeyEntry,
    )
}

fn ipv6_entry_key_field(key: &str) -> Option<FieldName>
    ensures { result ≡ said.named (said.field_names MessageKind.Ipv6EntryKey) key.now }
{
    named_among!(key;
        "prefix": FieldName::Ipv6EntryKeyPrefix,
        "entry": FieldName::Ipv6EntryKeyEntry,
    )
}

fn label_entry_key_field(key: &str) -> Option<FieldName>
    ensures { result ≡ said.named (said.field_names MessageKind.LabelEntryKey) key.now }
{
    named_among!(key;
        "label_uint64": FieldName::LabelEntryKeyLabelUint64,
        "label_entry": FieldName::LabelEntryKeyLabelEntry,
    )
}

fn ipv4_leaves_field(key: &str) -> Option<FieldName>
    ensures { result ≡ said.named (said.field_names MessageKind.Ipv4Leaves) key.now }
{
    named_among!(key;
        "next_hop_group": FieldName::Ipv4LeavesNextHopGroup,
        "next_hop_group_network_instance": FieldName::Ipv4LeavesNextHopGroupNetworkInstance,
    )
}

fn ipv6_leaves_field(key: &str) -> Option<FieldName>
    ensures { result ≡ said.named (said.field_names MessageKind.Ipv6Leaves) key.now }
{
    named_among!(key;
        "next_hop_group": FieldName::Ipv6LeavesNextHopGroup,
        "next_hop_group_network_instance": FieldName::Ipv6LeavesNextHopGroupNetworkInstance,
    )
}

fn label_leaves_field(key: &str) -> Option<FieldName>
    ensures { result ≡ said.named (said.field_names MessageKind.LabelLeaves) key.now }
{
    named_among!(key;
        "next_hop_group": FieldName::LabelLeavesNextHopGroup,
        "next_hop_group_network_instance": FieldName::LabelLeavesNextHopGroupNetworkInstance,
    )
}

fn next_hop_group_key_field(key: &str) -> Option<FieldName>
    ensures { result ≡ said.named (said.field_names MessageKind.NextHopGroupKey) key.now }
{
    named_among!(key;
        "id": FieldName::NextHopGroupKeyId,
        "next_hop_group": FieldName::NextHopGroupKeyNextHopGroup,
    )
}

fn next_hop_group_field(key: &str) -> Option<FieldName>
    ensures { result ≡ said.named (said.field_names MessageKind.NextHopGroup) key.now }
{
    named_among!(key;
        "next_hop": FieldName::NextHopGroupNextHop,
        "backup_next_hop_group": FieldName::NextHopGroupBackupNextHopGroup,
    )
}

fn member_key_field(key: &str) -> Option<FieldName>
    ensures { result ≡ said.named (said.field_names MessageKind.MemberKey) key.now }
{
    named_among!(key;
        "index": FieldName::MemberKeyIndex,
        "next_hop": FieldName::MemberKeyNextHop,
    )
}

fn member_leaves_field(key: &str) -> Option<FieldName>
    ensures { result ≡ said.named (said.field_names MessageKind.MemberLeaves) key.now }
{
    named_among!(key;
        "weight": FieldName::MemberLeavesWeight,
    )
}

fn next_hop_key_field(key: &str) -> Option<FieldName>
    ensures { result ≡ said.named (said.field_names MessageKind.NextHopKey) key.now }
{
    named_among!(key;
        "index": FieldName::NextHopKeyIndex,
        "next_hop": FieldName::NextHopKeyNextHop,
    )
}

fn next_hop_field(key: &str) -> Option<FieldName>
    ensures { result ≡ said.named (said.field_names MessageKind.NextHop) key.now }
{
    named_among!(key;
        "ip_address": FieldName::NextHopIpAddress,
        "mac_address": FieldName::NextHopMacAddress,
        "interface_ref": FieldName::NextHopInterfaceRef,
        "ip_in_ip": FieldName::NextHopIpInIp,
        "pushed_mpls_label_stack": FieldName::NextHopPushedMplsLabelStack,
    )
}

fn interface_ref_field(key: &str) -> Option<FieldName>
    ensures { result ≡ said.named (said.field_names MessageKind.InterfaceRef) key.now }
{
    named_among!(key;
        "interface": FieldName::InterfaceRefInterface,
        "subinterface": FieldName::InterfaceRefSubinterface,
    )
}

fn ip_in_ip_field(key: &str) -> Option<FieldName>
    ensures { result ≡ said.named (said.field_names MessageKind.IpInIp) key.now }
{
    named_among!(key;
        "src_ip": FieldName::IpInIpSrcIp,
        "dst_ip": FieldName::IpInIpDstIp,
    )
}

fn pushed_label_field(key: &str) -> Option<FieldName>
    ensures { result ≡ said.named (said.field_names MessageKind.PushedLabel) key.now }
{
    named_among!(key;
        "label_uint64": FieldName::PushedLabelLabelUint64,
    )
}

/// The field of a name in a message.
pub(crate) fn field_named(message: MessageKind, key: &str) -> Option<FieldName>
    ensures { result ≡ said.named (said.field_names message) key.now }
{
    match message {
        MessageKind::ModifyRequest => modify_request_field(key),
        MessageKind::AftOperation => aft_operation_field(key),
        MessageKind::SessionParameters => session_parameters_field(key),
        MessageKind::Uint128 => uint128_field(key),
        MessageKind::ModifyResponse => modify_response_field(key),
        MessageKind::AftResult => aft_result_field(key),
        MessageKind::SessionParametersResult => session_parameters_result_field(key),
        MessageKind::GetRequest => get_request_field(key),
        MessageKind::GetResponse => get_response_field(key),
        MessageKind::AftEntry => aft_entry_field(key),
        MessageKind::FlushRequest => flush_request_field(key),
        MessageKind::FlushResponse => flush_response_field(key),
        MessageKind::ModifyRpcErrorDetails => modify_rpc_error_details_field(key),
        MessageKind::Ipv4EntryKey => ipv4_entry_key_field(key),
        MessageKind::Ipv6EntryKey => ipv6_entry_key_field(key),
        MessageKind::LabelEntryKey => label_entry_key_field(key),
        MessageKind::Ipv4Leaves => ipv4_leaves_field(key),
        MessageKind::Ipv6Leaves => ipv6_leaves_field(key),
        MessageKind::LabelLeaves => label_leaves_field(key),
        MessageKind::NextHopGroupKey => next_hop_group_key_field(key),
        MessageKind::NextHopGroup => next_hop_group_field(key),
        MessageKind::MemberKey => member_key_field(key),
        MessageKind::MemberLeaves => member_leaves_field(key),
        MessageKind::NextHopKey => next_hop_key_field(key),
        MessageKind::NextHop => next_hop_field(key),
        MessageKind::InterfaceRef => interface_ref_field(key),
        MessageKind::IpInIp => ip_in_ip_field(key),
        MessageKind::PushedLabel => pushed_label_field(key),
        MessageKind::UintValue | MessageKind::StringValue | MessageKind::Empty => None,
    }
}

/// The enumeration of a name.
pub(crate) fn enumeration_named(key: &str) -> Option<Enumeration>
    ensures { result ≡ said.named said.enumerations key.now }
{
    named_among!(key;
        "op": Enumeration::Op,
        "redundancy": Enumeration::Redundancy,
        "persistence": Enumeration::Persistence,
        "ack_type": Enumeration::AckType,
        "aft_result_status": Enumeration::AftResultStatus,
        "session_parameters_status": Enumeration::SessionParametersStatus,
        "aft": Enumeration::Aft,
        "entry_status": Enumeration::EntryStatus,
        "flush_result": Enumeration::FlushResult,
        "modify_reason": Enumeration::ModifyReason,
    )
}

fn op_value(key: &str) -> Option<ValueName>
    ensures { result ≡ said.named (said.value_names Enumeration.Op) key.now }
{
    named_among!(key;
        "ADD": ValueName::OpAdd,
        "REPLACE": ValueName::OpReplace,
        "DELETE": ValueName::OpDelete,
    )
}

fn redundancy_value(key: &str) -> Option<ValueName>
    ensures { result ≡ said.named (said.value_names Enumeration.Redundancy) key.now }
{
    named_among!(key;
        "ALL_PRIMARY": ValueName::RedundancyAllPrimary,
        "SINGLE_PRIMARY": ValueName::RedundancySinglePrimary,
    )
}

fn persistence_value(key: &str) -> Option<ValueName>
    ensures { result ≡ said.named (said.value_names Enumeration.Persistence) key.now }
{
    named_among!(key;
        "DELETE": ValueName::PersistenceDelete,
        "PRESERVE": ValueName::PersistencePreserve,
    )
}

fn ack_type_value(key: &str) -> Option<ValueName>
    ensures { result ≡ said.named (said.value_names Enumeration.AckType) key.now }
{
    named_among!(key;
        "RIB_ACK": ValueName::AckTypeRibAck,
        "RIB_AND_FIB_ACK": ValueName::AckTypeRibAndFibAck,
    )
}

fn aft_result_status_value(key: &str) -> Option<ValueName>
    ensures { result ≡ said.named (said.value_names Enumeration.AftResultStatus) key.now }
{
    named_among!(key;
        "FAILED": ValueName::ResultStatusFailed,
        "RIB_PROGRAMMED": ValueName::ResultStatusRibProgrammed,
        "FIB_PROGRAMMED": ValueName::ResultStatusFibProgrammed,
        "FIB_FAILED": ValueName::ResultStatusFibFailed,
    )
}

fn session_parameters_status_value(key: &str) -> Option<ValueName>
    ensures { result ≡ said.named (said.value_names Enumeration.SessionParametersStatus) key.now }
{
    named_among!(key;
        "OK": ValueName::ParamsStatusOk,
    )
}

fn aft_value(key: &str) -> Option<ValueName>
    ensures { result ≡ said.named (said.value_names Enumeration.Aft) key.now }
{
    named_among!(key;
        "ALL": ValueName::AftAll,
        "IPV4": ValueName::AftIpv4,
        "IPV6": ValueName::AftIpv6,
        "MPLS": ValueName::AftMpls,
        "NEXTHOP": ValueName::AftNextHop,
        "NEXTHOP_GROUP": ValueName::AftNextHopGroup,
    )
}

fn entry_status_value(key: &str) -> Option<ValueName>
    ensures { result ≡ said.named (said.value_names Enumeration.EntryStatus) key.now }
{
    named_among!(key;
        "PROGRAMMED": ValueName::EntryStatusProgrammed,
        "NOT_PROGRAMMED": ValueName::EntryStatusNotProgrammed,
    )
}

fn flush_result_value(key: &str) -> Option<ValueName>
    ensures { result ≡ said.named (said.value_names Enumeration.FlushResult) key.now }
{
    named_among!(key;
        "OK": ValueName::FlushResultOk,
        "NON_ZERO_REFERENCE_REMAIN": ValueName::FlushResultNonZeroReferenceRemain,
    )
}

fn modify_reason_value(key: &str) -> Option<ValueName>
    ensures { result ≡ said.named (said.value_names Enumeration.ModifyReason) key.now }
{
    named_among!(key;
        "UNSUPPORTED_PARAMS": ValueName::ModifyReasonUnsupportedParams,
        "MODIFY_NOT_ALLOWED": ValueName::ModifyReasonModifyNotAllowed,
        "PARAMS_DIFFER_FROM_OTHER_CLIENTS": ValueName::ModifyReasonParamsDifferFromOtherClients,
        "ELECTION_ID_IN_ALL_PRIMARY": ValueName::ModifyReasonElectionIdInAllPrimary,
    )
}

/// The enumerator of a name in an enumeration.
pub(crate) fn value_named(enumeration: Enumeration, key: &str) -> Option<ValueName>
    ensures { result ≡ said.named (said.value_names enumeration) key.now }
{
    match enumeration {
        Enumeration::Op => op_value(key),
        Enumeration::Redundancy => redundancy_value(key),
        Enumeration::Persistence => persistence_value(key),
        Enumeration::AckType => ack_type_value(key),
        Enumeration::AftResultStatus => aft_result_status_value(key),
        Enumeration::SessionParametersStatus => session_parameters_status_value(key),
        Enumeration::Aft => aft_value(key),
        Enumeration::EntryStatus => entry_status_value(key),
        Enumeration::FlushResult => flush_result_value(key),
        Enumeration::ModifyReason => modify_reason_value(key),
    }
}
