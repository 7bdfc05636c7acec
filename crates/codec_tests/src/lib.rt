//! Tests of the codecs: the texts of addresses, entries, and the messages of gRIBI.
#![tactic(auto)]

#[cfg(test)]
mod addresses;
#[cfg(test)]
mod byte_streams;
#[cfg(test)]
mod entries;
#[cfg(test)]
mod entry_messages;
#[cfg(test)]
mod flush_messages;
#[cfg(test)]
mod get_messages;
#[cfg(test)]
mod links;
#[cfg(test)]
mod message_values;
#[cfg(test)]
mod modify_requests;
#[cfg(test)]
mod modify_responses;
#[cfg(test)]
mod wire_fields;
