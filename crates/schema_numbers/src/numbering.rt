ghost use Rattle.std.specs.Prelude.{◌≡◌, ◌<◌, ◌≤◌, ◌^◌, true, IfOk, length};
ghost use Rattle.schema_numbers.specs.Places.{field_place, value_place};
ghost use Rattle.schema_numbers.specs.Numbers.{field_of, value_of};
ghost use Rattle.schema_numbers.specs.Valid.{IsValid};
ghost use Rattle.schema_numbers.specs.Default.{default_numbers};

use crate::names::{FieldName, ValueName};
use std::alloc::{AllocError, Global};
use std::marker::Model;

// The default numbers of the fields, in the order of their names.
pub(crate) const FIELDS: [u32; 77] = [
    // a ModifyRequest
    1, 2, 3,
    // an AFTOperation
    1, 2, 3, 4, 5, 6, 7, 8, 9, 10, 11,
    // SessionParameters
    1, 2, 3,
    // a Uint128
    1, 2,
    // a ModifyResponse
    1, 2, 3,
    // an AFTResult
    1, 2, 3, 4,
    // a SessionParametersResult
    1,
    // a GetRequest
    1, 2, 3,
    // a GetResponse
    1,
    // an AFTEntry
    1, 2, 3, 4, 5, 6, 7, 8,
    // a FlushRequest
    1, 2, 3, 4,
    // a FlushResponse
    1, 2,
    // ModifyRPCErrorDetails
    1,
    // an Ipv4EntryKey
    1, 2,
    // an Ipv6EntryKey
    1, 2,
    // a LabelEntryKey
    1, 2,
    // the RouteLeaves of an IPv4 entry
    1, 2,
    // the RouteLeaves of an IPv6 entry
    1, 2,
    // the RouteLeaves of a label entry
    1, 2,
    // a NextHopGroupKey
    1, 2,
    // a NextHopGroup
    1, 2,
    // a MemberKey
    1, 2,
    // MemberLeaves
    1,
    // a NextHopKey
    1, 2,
    // a NextHop
    1, 2, 3, 4, 5,
    // an InterfaceRef
    1, 2,
    // an IpInIp
    1, 2,
    // a PushedLabel
    1,
];

// The default numbers of the enumerators, in the order of their names.
pub(crate) const VALUES: [u64; 28] = [
    // op
    1, 2, 3,
    // redundancy
    0, 1,
    // persistence
    0, 1,
    // ack_type
    0, 1,
    // the status of an AFTResult
    2, 3, 4, 5,
    // the status of session parameters
    1,
    // aft
    1, 2, 3, 4, 5, 6,
    // the status of an entry in the RIB or the FIB
    1, 2,
    // the result of a Flush
    1, 2,
    // the reason of a refused Modify
    1, 2, 3, 4,
];

/// Which number each field and each enumerator has on the wire. It is valid: in each message the field numbers are
/// distinct, from 1 to 536,870,911 and outside 19,000 to 19,999; in each enumeration the numbers are distinct and at
/// most 2,147,483,647; and ALL_PRIMARY, the persistence DELETE and RIB_ACK are 0.
#[derive(Debug, Drop)]
pub struct Numbering {
    fields: Vec<u32>,
    values: Vec<u64>,
}

impl Model for Numbering {
    ghost use Rattle.schema_numbers.specs.Numbers.{Numbers};

    ghost Value = { Numbers };

    ghost use Rattle.schema_numbers.specs.Valid.{IsValid};

    ghost view = { λ n. record { fields = n.fields.items; values = n.values.items } };

    ghost invariant = { λ n. IsValid (record { fields = n.fields.items; values = n.values.items }) };
}

pub(crate) fn field_place(item: FieldName) -> usize
    ensures value { result ≡ field_place item }
    ensures within { result < 77 }
{
    item as usize
}

pub(crate) fn value_place(item: ValueName) -> usize
    ensures value { result ≡ value_place item }
    ensures within { result < 28 }
{
    item as usize
}

impl Numbering {
    // The numbering of numbers that are valid.
    pub(crate) fn checked(fields: Vec<u32>, values: Vec<u64>) -> Numbering
        requires { IsValid (record { fields = fields.items; values = values.items }) }
        ensures { result ≡ record { fields = fields.items; values = values.items } }
    {
        Numbering { fields, values }
    }

    /// The number of a field.
    #[tactic(auto, unfolding(crate::specs::Numbers::field_of))]
    pub fn field(&self, item: FieldName) -> u32
        ensures value { result ≡ field_of self.now item }
        ensures range { (1 ≤ result) × (result < 2 ^ 29) }
    {
        self.fields[field_place(item)]
    }

    /// The number of an enumerator.
    #[tactic(auto, unfolding(crate::specs::Numbers::value_of))]
    pub fn value(&self, item: ValueName) -> u64
        ensures value { result ≡ value_of self.now item }
        ensures range { result < 2 ^ 31 }
    {
        self.values[value_place(item)]
    }

    /// Each numbering is valid.
    pub fn all_are_valid(&self)
        ensures { IsValid self.now }
    {
        // A field has to be read: only then is it known what the type says of all numberings.
        let _ = &self.fields;
    }
}

/// The default numbers, or want of memory.
#[tactic(auto, using(crate::proofs::Ranges::default_is_valid))]
pub fn default_numbering(alloc: Global) -> Result<Numbering, AllocError>
    ensures { IfOk result (λ n. n ≡ default_numbers) }
{
    let fields = Vec::from_slice(alloc, &FIELDS)?;
    let values = Vec::from_slice(alloc, &VALUES)?;
    Ok(Numbering { fields, values })
}
