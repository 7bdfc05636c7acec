use aft_entries::Reason;
use table_model::{Params, Reply};

/// A reply: of lists it tells how long they are, and of rows how many are installed too.
#[derive(Clone, Copy, PartialEq, Eq)]
pub enum ReplySummary {
    Began(u64),
    Set,
    Unsupported,
    NotAllowed,
    Differ(Params),
    NoParams,
    Announced(u128),
    ZeroId,
    Accepted,
    Failed(Reason),
    Collected(usize, u64),
    Left,
    Flushed(bool),
    Refused(u128),
    Rows(usize, usize),
    Given(u64, u64),
    Skipped(u64, u64),
    Idle,
    HaltSeen,
    Reported,
    NotOut,
    HaltDone,
    Stopped,
    Gone,
    NoMemory,
}

pub fn summary_of(reply: &Reply) -> ReplySummary {
    match reply {
        Reply::Began(session) => ReplySummary::Began(*session),
        Reply::ParamsSet => ReplySummary::Set,
        Reply::ParamsUnsupported => ReplySummary::Unsupported,
        Reply::ParamsNotAllowed => ReplySummary::NotAllowed,
        Reply::ParamsDiffer(params) => ReplySummary::Differ(*params),
        Reply::NoParams => ReplySummary::NoParams,
        Reply::Announced(id) => ReplySummary::Announced(*id),
        Reply::ZeroId => ReplySummary::ZeroId,
        Reply::RibDone => ReplySummary::Accepted,
        Reply::RibFailed(reason) => ReplySummary::Failed(*reason),
        Reply::Collected(batch, left) => ReplySummary::Collected(batch.len(), *left),
        Reply::Left => ReplySummary::Left,
        Reply::Flushed(remain) => ReplySummary::Flushed(*remain),
        Reply::FlushRefused(id) => ReplySummary::Refused(*id),
        Reply::Selected(rows) => {
            let rows = rows.as_slice();
            ReplySummary::Rows(rows.len(), rows.iter().filter(|row| row.installed).count())
        }
        Reply::Given(job) => ReplySummary::Given(job.number.position, job.number.index),
        Reply::Skipped(number) => ReplySummary::Skipped(number.position, number.index),
        Reply::Idle => ReplySummary::Idle,
        Reply::HaltSeen => ReplySummary::HaltSeen,
        Reply::Reported => ReplySummary::Reported,
        Reply::NotOut => ReplySummary::NotOut,
        Reply::HaltDone => ReplySummary::HaltDone,
        Reply::Stopped => ReplySummary::Stopped,
        Reply::Gone => ReplySummary::Gone,
        Reply::NoMemory => ReplySummary::NoMemory,
    }
}
