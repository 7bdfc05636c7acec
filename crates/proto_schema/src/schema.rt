ghost use Rattle.std.specs.Prelude.{◌≡◌, ◌∷◌, []};
ghost use Rattle.proto_schema.specs.Schema.{fields_of, listed, kind_of};

use schema_numbers::{FieldName, Numbering};

/// The messages of gRIBI. The keys and leaves of IPv4, IPv6 and label entries are kinds of their own, since each has
/// numbers of its own.
#[derive(Clone, Copy, Debug, PartialEq, Eq)]
pub enum MessageKind {
    ModifyRequest,
    AftOperation,
    SessionParameters,
    Uint128,
    ModifyResponse,
    AftResult,
    SessionParametersResult,
    GetRequest,
    GetResponse,
    AftEntry,
    FlushRequest,
    FlushResponse,
    ModifyRpcErrorDetails,
    Ipv4EntryKey,
    Ipv6EntryKey,
    LabelEntryKey,
    Ipv4Leaves,
    Ipv6Leaves,
    LabelLeaves,
    NextHopGroupKey,
    NextHopGroup,
    MemberKey,
    MemberLeaves,
    NextHopKey,
    NextHop,
    InterfaceRef,
    IpInIp,
    PushedLabel,
    UintValue,
    StringValue,
    Empty,
}

/// What a field of a message is.
#[derive(Clone, Copy, Debug, PartialEq, Eq)]
pub enum FieldKind {
    /// Not in the schema.
    Unknown,
    Number,
    Text,
    /// Bytes that are not looked at.
    Unread,
    Message(MessageKind),
}

// What the first field of this number is.
macro_rules! kind_among {
    ($n:ident, $number:ident;) => { FieldKind::Unknown };
    ($n:ident, $number:ident; $name:ident: Message($message:ident), $($rest:tt)*) => {
        if $number == $n.field(FieldName::$name) {
            FieldKind::Message(MessageKind::$message)
        } else {
            kind_among!($n, $number; $($rest)*)
        }
    };
    ($n:ident, $number:ident; $name:ident: $kind:ident, $($rest:tt)*) => {
        if $number == $n.field(FieldName::$name) {
            FieldKind::$kind
        } else {
            kind_among!($n, $number; $($rest)*)
        }
    };
}

fn modify_request_field(n: &Numbering, number: u32) -> FieldKind
    ensures { result ≡ listed number (fields_of n.now MessageKind.ModifyRequest) }
{
    kind_among!(n, number;
        ModifyRequestOperation: Message(AftOperation),
        ModifyRequestParams: Message(SessionParameters),
        ModifyRequestElectionId: Message(Uint128),
    )
}

fn aft_operation_field(n: &Numbering, number: u32) -> FieldKind
    ensures { result ≡ listed number (fields_of n.now MessageKind.AftOperation) }
{
    kind_among!(n, number;
        AftOperationId: Number,
        AftOperationNetworkInstance: Text,
        AftOperationOp: Number,
        AftOperationIpv4: Message(Ipv4EntryKey),
        AftOperationIpv6: Message(Ipv6EntryKey),
        AftOperationMpls: Message(LabelEntryKey),
        AftOperationNextHopGroup: Message(NextHopGroupKey),
        AftOperationNextHop: Message(NextHopKey),
        AftOperationMacAddress: Unread,
        AftOperationPolicyForwardingEntry: Unread,
        AftOperationElectionId: Message(Uint128),
    )
}

fn session_parameters_field(n: &Numbering, number: u32) -> FieldKind
    ensures { result ≡ listed number (fields_of n.now MessageKind.SessionParameters) }
{
    kind_among!(n, number;
        SessionParametersRedundancy: Number,
        SessionParametersPersistence: Number,
        SessionParametersAckType: Number,
    )
}

fn uint128_field(n: &Numbering, number: u32) -> FieldKind
    ensures { result ≡ listed number (fields_of n.now MessageKind.Uint128) }
{
    kind_among!(n, number;
        Uint128High: Number,
        Uint128Low: Number,
    )
}

fn modify_response_field(n: &Numbering, number: u32) -> FieldKind
    ensures { result ≡ listed number (fields_of n.now MessageKind.ModifyResponse) }
{
    kind_among!(n, number;
        ModifyResponseResult: Message(AftResult),
        ModifyResponseSessionParamsResult: Message(SessionParametersResult),
        ModifyResponseElectionId: Message(Uint128),
    )
}

fn aft_result_field(n: &Numbering, number: u32) -> FieldKind
    ensures { result ≡ listed number (fields_of n.now MessageKind.AftResult) }
{
    kind_among!(n, number;
        AftResultId: Number,
        AftResultStatus: Number,
        AftResultTimestamp: Number,
        AftResultReason: Number,
    )
}

fn session_parameters_result_field(n: &Numbering, number: u32) -> FieldKind
    ensures { result ≡ listed number (fields_of n.now MessageKind.SessionParametersResult) }
{
    kind_among!(n, number;
        SessionParametersResultStatus: Number,
    )
}

fn get_request_field(n: &Numbering, number: u32) -> FieldKind
    ensures { result ≡ listed number (fields_of n.now MessageKind.GetRequest) }
{
    kind_among!(n, number;
        GetRequestName: Text,
        GetRequestAll: Message(Empty),
        GetRequestAft: Number,
    )
}

fn get_response_field(n: &Numbering, number: u32) -> FieldKind
    ensures { result ≡ listed number (fields_of n.now MessageKind.GetResponse) }
{
    kind_among!(n, number;
        GetResponseEntry: Message(AftEntry),
    )
}

fn aft_entry_field(n: &Numbering, number: u32) -> FieldKind
    ensures { result ≡ listed number (fields_of n.now MessageKind.AftEntry) }
{
    kind_among!(n, number;
        AftEntryNetworkInstance: Text,
        AftEntryIpv4: Message(Ipv4EntryKey),
        AftEntryIpv6: Message(Ipv6EntryKey),
        AftEntryMpls: Message(LabelEntryKey),
        AftEntryNextHopGroup: Message(NextHopGroupKey),
        AftEntryNextHop: Message(NextHopKey),
        AftEntryRibStatus: Number,
        AftEntryFibStatus: Number,
    )
}

fn flush_request_field(n: &Numbering, number: u32) -> FieldKind
    ensures { result ≡ listed number (fields_of n.now MessageKind.FlushRequest) }
{
    kind_among!(n, number;
        FlushRequestId: Message(Uint128),
        FlushRequestOverride: Message(Empty),
        FlushRequestName: Text,
        FlushRequestAll: Message(Empty),
    )
}

fn flush_response_field(n: &Numbering, number: u32) -> FieldKind
    ensures { result ≡ listed number (fields_of n.now MessageKind.FlushResponse) }
{
    kind_among!(n, number;
        FlushResponseTimestamp: Number,
        FlushResponseResult: Number,
    )
}

fn modify_rpc_error_details_field(n: &Numbering, number: u32) -> FieldKind
    ensures { result ≡ listed number (fields_of n.now MessageKind.ModifyRpcErrorDetails) }
{
    kind_among!(n, number;
        ModifyRpcErrorDetailsReason: Number,
    )
}

fn ipv4_entry_key_field(n: &Numbering, number: u32) -> FieldKind
    ensures { result ≡ listed number (fields_of n.now MessageKind.Ipv4EntryKey) }
{
    kind_among!(n, number;
        Ipv4EntryKeyPrefix: Text,
        Ipv4EntryKeyEntry: Message(Ipv4Leaves),
    )
}

fn ipv6_entry_key_field(n: &Numbering, number: u32) -> FieldKind
    ensures { result ≡ listed number (fields_of n.now MessageKind.Ipv6EntryKey) }
{
    kind_among!(n, number;
        Ipv6EntryKeyPrefix: Text,
        Ipv6EntryKeyEntry: Message(Ipv6Leaves),
    )
}

fn label_entry_key_field(n: &Numbering, number: u32) -> FieldKind
    ensures { result ≡ listed number (fields_of n.now MessageKind.LabelEntryKey) }
{
    kind_among!(n, number;
        LabelEntryKeyLabelUint64: Number,
        LabelEntryKeyLabelEntry: Message(LabelLeaves),
    )
}

fn ipv4_leaves_field(n: &Numbering, number: u32) -> FieldKind
    ensures { result ≡ listed number (fields_of n.now MessageKind.Ipv4Leaves) }
{
    kind_among!(n, number;
        Ipv4LeavesNextHopGroup: Message(UintValue),
        Ipv4LeavesNextHopGroupNetworkInstance: Message(StringValue),
    )
}

fn ipv6_leaves_field(n: &Numbering, number: u32) -> FieldKind
    ensures { result ≡ listed number (fields_of n.now MessageKind.Ipv6Leaves) }
{
    kind_among!(n, number;
        Ipv6LeavesNextHopGroup: Message(UintValue),
        Ipv6LeavesNextHopGroupNetworkInstance: Message(StringValue),
    )
}

fn label_leaves_field(n: &Numbering, number: u32) -> FieldKind
    ensures { result ≡ listed number (fields_of n.now MessageKind.LabelLeaves) }
{
    kind_among!(n, number;
        LabelLeavesNextHopGroup: Message(UintValue),
        LabelLeavesNextHopGroupNetworkInstance: Message(StringValue),
    )
}

fn next_hop_group_key_field(n: &Numbering, number: u32) -> FieldKind
    ensures { result ≡ listed number (fields_of n.now MessageKind.NextHopGroupKey) }
{
    kind_among!(n, number;
        NextHopGroupKeyId: Number,
        NextHopGroupKeyNextHopGroup: Message(NextHopGroup),
    )
}

fn next_hop_group_field(n: &Numbering, number: u32) -> FieldKind
    ensures { result ≡ listed number (fields_of n.now MessageKind.NextHopGroup) }
{
    kind_among!(n, number;
        NextHopGroupNextHop: Message(MemberKey),
        NextHopGroupBackupNextHopGroup: Message(UintValue),
    )
}

fn member_key_field(n: &Numbering, number: u32) -> FieldKind
    ensures { result ≡ listed number (fields_of n.now MessageKind.MemberKey) }
{
    kind_among!(n, number;
        MemberKeyIndex: Number,
        MemberKeyNextHop: Message(MemberLeaves),
    )
}

fn member_leaves_field(n: &Numbering, number: u32) -> FieldKind
    ensures { result ≡ listed number (fields_of n.now MessageKind.MemberLeaves) }
{
    kind_among!(n, number;
        MemberLeavesWeight: Message(UintValue),
    )
}

fn next_hop_key_field(n: &Numbering, number: u32) -> FieldKind
    ensures { result ≡ listed number (fields_of n.now MessageKind.NextHopKey) }
{
    kind_among!(n, number;
        NextHopKeyIndex: Number,
        NextHopKeyNextHop: Message(NextHop),
    )
}

fn next_hop_field(n: &Numbering, number: u32) -> FieldKind
    ensures { result ≡ listed number (fields_of n.now MessageKind.NextHop) }
{
    kind_among!(n, number;
        NextHopIpAddress: Message(StringValue),
        NextHopMacAddress: Message(StringValue),
        NextHopInterfaceRef: Message(InterfaceRef),
        NextHopIpInIp: Message(IpInIp),
        NextHopPushedMplsLabelStack: Message(PushedLabel),
    )
}

fn interface_ref_field(n: &Numbering, number: u32) -> FieldKind
    ensures { result ≡ listed number (fields_of n.now MessageKind.InterfaceRef) }
{
    kind_among!(n, number;
        InterfaceRefInterface: Message(StringValue),
        InterfaceRefSubinterface: Message(UintValue),
    )
}

fn ip_in_ip_field(n: &Numbering, number: u32) -> FieldKind
    ensures { result ≡ listed number (fields_of n.now MessageKind.IpInIp) }
{
    kind_among!(n, number;
        IpInIpSrcIp: Message(StringValue),
        IpInIpDstIp: Message(StringValue),
    )
}

fn pushed_label_field(n: &Numbering, number: u32) -> FieldKind
    ensures { result ≡ listed number (fields_of n.now MessageKind.PushedLabel) }
{
    kind_among!(n, number;
        PushedLabelLabelUint64: Number,
    )
}

// The one field of a wrapper.
fn value_field(kind: FieldKind, number: u32) -> FieldKind
    ensures { result ≡ listed number ((1, kind) ∷ []) }
{
    if number == 1 {
        kind
    } else {
        FieldKind::Unknown
    }
}

/// What the field of this number is.
#[tactic(auto, unfolding(crate::specs::Schema::kind_of))]
pub fn field_kind(n: &Numbering, message: MessageKind, number: u32) -> FieldKind
    ensures { result ≡ kind_of n.now message number }
{
    match message {
        MessageKind::ModifyRequest => modify_request_field(n, number),
        MessageKind::AftOperation => aft_operation_field(n, number),
        MessageKind::SessionParameters => session_parameters_field(n, number),
        MessageKind::Uint128 => uint128_field(n, number),
        MessageKind::ModifyResponse => modify_response_field(n, number),
        MessageKind::AftResult => aft_result_field(n, number),
        MessageKind::SessionParametersResult => session_parameters_result_field(n, number),
        MessageKind::GetRequest => get_request_field(n, number),
        MessageKind::GetResponse => get_response_field(n, number),
        MessageKind::AftEntry => aft_entry_field(n, number),
        MessageKind::FlushRequest => flush_request_field(n, number),
        MessageKind::FlushResponse => flush_response_field(n, number),
        MessageKind::ModifyRpcErrorDetails => modify_rpc_error_details_field(n, number),
        MessageKind::Ipv4EntryKey => ipv4_entry_key_field(n, number),
        MessageKind::Ipv6EntryKey => ipv6_entry_key_field(n, number),
        MessageKind::LabelEntryKey => label_entry_key_field(n, number),
        MessageKind::Ipv4Leaves => ipv4_leaves_field(n, number),
        MessageKind::Ipv6Leaves => ipv6_leaves_field(n, number),
        MessageKind::LabelLeaves => label_leaves_field(n, number),
        MessageKind::NextHopGroupKey => next_hop_group_key_field(n, number),
        MessageKind::NextHopGroup => next_hop_group_field(n, number),
        MessageKind::MemberKey => member_key_field(n, number),
        MessageKind::MemberLeaves => member_leaves_field(n, number),
        MessageKind::NextHopKey => next_hop_key_field(n, number),
        MessageKind::NextHop => next_hop_field(n, number),
        MessageKind::InterfaceRef => interface_ref_field(n, number),
        MessageKind::IpInIp => ip_in_ip_field(n, number),
        MessageKind::PushedLabel => pushed_label_field(n, number),
        MessageKind::UintValue => value_field(FieldKind::Number, number),
        MessageKind::StringValue => value_field(FieldKind::Text, number),
        MessageKind::Empty => FieldKind::Unknown,
    }
}
