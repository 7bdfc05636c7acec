//! Tests of the table's crates, through public calls.
#![tactic(auto)]

#[cfg(test)]
mod announcements;
#[cfg(test)]
mod batches;
#[cfg(test)]
mod board_jobs;
#[cfg(test)]
mod fib_histories;
#[cfg(test)]
mod flushes;
#[cfg(test)]
mod histories;
#[cfg(test)]
mod job_orders;
#[cfg(test)]
mod operations;
#[cfg(test)]
mod parameters;
#[cfg(test)]
mod plain_replies;
#[cfg(test)]
mod replies;
#[cfg(test)]
mod steps;
#[cfg(test)]
mod stored_entries;
