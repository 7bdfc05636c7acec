//! The names of the fields and enumerators that have a number on the wire.

/// A field of a message, by its message and its own name.
#[derive(Clone, Copy, Debug, PartialEq, Eq)]
pub enum FieldName {
    // a ModifyRequest
    ModifyRequestOperation,
    ModifyRequestParams,
    ModifyRequestElectionId,
    // an AFTOperation
    AftOperationId,
    AftOperationNetworkInstance,
    AftOperationOp,
    AftOperationIpv4,
    AftOperationIpv6,
    AftOperationMpls,
    AftOperationNextHopGroup,
    AftOperationNextHop,
    AftOperationMacAddress,
    AftOperationPolicyForwardingEntry,
    AftOperationElectionId,
    // SessionParameters
    SessionParametersRedundancy,
    SessionParametersPersistence,
    SessionParametersAckType,
    // a Uint128
    Uint128High,
    Uint128Low,
    // a ModifyResponse
    ModifyResponseResult,
    ModifyResponseSessionParamsResult,
    ModifyResponseElectionId,
    // an AFTResult
    AftResultId,
    AftResultStatus,
    AftResultTimestamp,
    AftResultReason,
    // a SessionParametersResult
    SessionParametersResultStatus,
    // a GetRequest
    GetRequestName,
    GetRequestAll,
    GetRequestAft,
    // a GetResponse
    GetResponseEntry,
    // an AFTEntry
    AftEntryNetworkInstance,
    AftEntryIpv4,
    AftEntryIpv6,
    AftEntryMpls,
    AftEntryNextHopGroup,
    AftEntryNextHop,
    AftEntryRibStatus,
    AftEntryFibStatus,
    // a FlushRequest
    FlushRequestId,
    FlushRequestOverride,
    FlushRequestName,
    FlushRequestAll,
    // a FlushResponse
    FlushResponseTimestamp,
    FlushResponseResult,
    // ModifyRPCErrorDetails
    ModifyRpcErrorDetailsReason,
    // an Ipv4EntryKey
    Ipv4EntryKeyPrefix,
    Ipv4EntryKeyEntry,
    // an Ipv6EntryKey
    Ipv6EntryKeyPrefix,
    Ipv6EntryKeyEntry,
    // a LabelEntryKey
    LabelEntryKeyLabelUint64,
    LabelEntryKeyLabelEntry,
    // the RouteLeaves of an IPv4 entry
    Ipv4LeavesNextHopGroup,
    Ipv4LeavesNextHopGroupNetworkInstance,
    // the RouteLeaves of an IPv6 entry
    Ipv6LeavesNextHopGroup,
    Ipv6LeavesNextHopGroupNetworkInstance,
    // the RouteLeaves of a label entry
    LabelLeavesNextHopGroup,
    LabelLeavesNextHopGroupNetworkInstance,
    // a NextHopGroupKey
    NextHopGroupKeyId,
    NextHopGroupKeyNextHopGroup,
    // a NextHopGroup
    NextHopGroupNextHop,
    NextHopGroupBackupNextHopGroup,
    // a MemberKey
    MemberKeyIndex,
    MemberKeyNextHop,
    // MemberLeaves
    MemberLeavesWeight,
    // a NextHopKey
    NextHopKeyIndex,
    NextHopKeyNextHop,
    // a NextHop
    NextHopIpAddress,
    NextHopMacAddress,
    NextHopInterfaceRef,
    NextHopIpInIp,
    NextHopPushedMplsLabelStack,
    // an InterfaceRef
    InterfaceRefInterface,
    InterfaceRefSubinterface,
    // an IpInIp
    IpInIpSrcIp,
    IpInIpDstIp,
    // a PushedLabel
    PushedLabelLabelUint64,
}

/// An enumerator, by its enumeration and its own name.
#[derive(Clone, Copy, Debug, PartialEq, Eq)]
pub enum ValueName {
    // op
    OpAdd,
    OpReplace,
    OpDelete,
    // redundancy
    RedundancyAllPrimary,
    RedundancySinglePrimary,
    // persistence
    PersistenceDelete,
    PersistencePreserve,
    // ack_type
    AckTypeRibAck,
    AckTypeRibAndFibAck,
    // the status of an AFTResult
    ResultStatusFailed,
    ResultStatusRibProgrammed,
    ResultStatusFibProgrammed,
    ResultStatusFibFailed,
    // the status of session parameters
    ParamsStatusOk,
    // aft
    AftAll,
    AftIpv4,
    AftIpv6,
    AftMpls,
    AftNextHop,
    AftNextHopGroup,
    // the status of an entry in the RIB or the FIB
    EntryStatusProgrammed,
    EntryStatusNotProgrammed,
    // the result of a Flush
    FlushResultOk,
    FlushResultNonZeroReferenceRemain,
    // the reason of a refused Modify
    ModifyReasonUnsupportedParams,
    ModifyReasonModifyNotAllowed,
    ModifyReasonParamsDifferFromOtherClients,
    ModifyReasonElectionIdInAllPrimary,
}
