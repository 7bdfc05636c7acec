ghost use Rattle.std.specs.Prelude.{◌≡◌};
ghost use Rattle.aft_entries.specs.Operations.{reason_number};

use crate::entry::Entry;
use crate::key::Key;
use crate::lists::Name;
use std::marker::Model;
use vec_list::VecList;

/// What an operation does.
#[derive(Clone, Copy, Debug, PartialEq, Eq)]
pub enum Op {
    Add,
    Replace,
    Delete,
}

/// Why an operation failed, in the order in which the causes are tested.
#[derive(Clone, Copy, Debug, PartialEq, Eq)]
pub enum Reason {
    NotPrimary,
    ElectionIdDiffers,
    OpUnsupported,
    KindUnsupported,
    UnknownInstance,
    BadKey,
    BadPayload,
    NotThere,
    Unresolved,
    BackupDepth,
    InUse,
    TableFull,
}

impl Reason {
    /// The number that a result gives.
    pub fn number(self) -> u8
        ensures { result ≡ reason_number self }
    {
        match self {
            Reason::NotPrimary => 1,
            Reason::ElectionIdDiffers => 2,
            Reason::OpUnsupported => 3,
            Reason::KindUnsupported => 4,
            Reason::UnknownInstance => 5,
            Reason::BadKey => 6,
            Reason::BadPayload => 7,
            Reason::NotThere => 8,
            Reason::Unresolved => 9,
            Reason::BackupDepth => 10,
            Reason::InUse => 11,
            Reason::TableFull => 12,
        }
    }
}

/// What a device did with a call.
#[derive(Clone, Copy, Debug, PartialEq, Eq)]
pub enum Act {
    /// It did what was asked.
    Done,
    /// It failed, and has what it had.
    Failed,
}

/// A checked operation. The flag of `Put` is true for a replacement.
#[derive(Drop)]
pub enum Ask {
    Put(Entry, bool),
    Remove(Key),
    Bad(Reason),
}

/// Labels as they were sent, seen as a list. A label may be absent.
pub type RawLabels = VecList<Option<u64>>;

/// Members as they were sent, seen as a list of an index and a weight, which may be absent.
pub type RawMembers = VecList<(u64, Option<u64>)>;

/// A next hop as it was sent, its texts unread.
#[derive(Drop)]
pub struct RawHop {
    pub ip: Option<Name>,
    pub mac: Option<Name>,
    pub interface: Option<Name>,
    pub subinterface: Option<u64>,
    pub source: Option<Name>,
    pub target: Option<Name>,
    pub push: RawLabels,
}

/// A group as it was sent.
#[derive(Drop)]
pub struct RawGroup {
    pub members: RawMembers,
    pub backup: Option<u64>,
}

/// A route as it was sent: its group, and the name of the group's instance.
#[derive(Drop)]
pub struct RawRoute {
    pub group: Option<u64>,
    pub instance: Option<Name>,
}

/// An entry as it was sent. An absent payload is an empty one.
#[derive(Drop)]
pub enum RawEntry {
    Hop(u64, RawHop),
    Group(u64, RawGroup),
    V4(Name, RawRoute),
    V6(Name, RawRoute),
    Label(Option<u64>, RawRoute),
    Mac,
    Policy,
}

/// An operation as it was sent. `op` is absent where its number isn't known.
#[derive(Drop)]
pub struct RawOperation {
    pub id: u64,
    pub instance: Name,
    pub op: Option<Op>,
    pub entry: Option<RawEntry>,
    pub election: Option<u128>,
}

/// An entry, and whether the forwarding table has it.
#[derive(Drop)]
pub struct Row {
    pub entry: Entry,
    pub installed: bool,
}

/// Entries, each with whether the forwarding table has it, seen as a list.
pub type Rows = VecList<Row>;
