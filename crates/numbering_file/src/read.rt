ghost use Rattle.std.specs.Prelude.{◌≡◌, Ok};
ghost use Rattle.std.specs.Option.{option_map};
ghost use Rattle.schema_numbers.specs.Default.{default_numbers};
ghost use Rattle.serde_json.specs.Find.{as_object};
ghost use Rattle.serde_json.specs.View.{view, members_view};
ghost use Rattle.numbering_file.specs.Names.{named, message_named, enumerations};
ghost use Rattle.numbering_file.specs.File as said;

use crate::names::{Enumeration, enumeration_named, field_named, message_named, value_named};
use proto_schema::MessageKind;
use schema_numbers::{Numbering, NumberingDraft};
use serde_json::{Map, Value};
use std::alloc::Global;

/// Why a numbering file gives no numbering: the first fault of its walk.
#[derive(Clone, Copy, Debug, PartialEq, Eq)]
pub enum NumberingFault {
    /// It has more than 1,048,576 bytes.
    TooLong,
    /// It is no JSON, or nests deeper than 127 levels.
    NotJson,
    /// Something else stands where an object is due, or a number that is a `u64`.
    BadShape,
    /// A key is no name in its place.
    UnknownName,
    /// The numbers break a rule of numberings.
    Invalid,
    /// There was no memory.
    NoMemory,
}

const MOST_BYTES: usize = 1_048_576;

fn read_fields(
    message: MessageKind,
    members: &Map<String, Value>,
    draft: &mut NumberingDraft,
) -> Option<NumberingFault>
    ensures { said.Leaves (said.fields_walked message (members_view members.now.entries) draft.old) draft.new result }
{
    for (key, value) in members {
        let Some(item) = field_named(message, key.as_str()) else {
            return Some(NumberingFault::UnknownName);
        };
        let Some(number) = value.as_u64() else {
            return Some(NumberingFault::BadShape);
        };
        draft.set_field(item, number);
    }
    None
}

fn read_values(
    enumeration: Enumeration,
    members: &Map<String, Value>,
    draft: &mut NumberingDraft,
) -> Option<NumberingFault>
    ensures { said.Leaves (said.values_walked enumeration (members_view members.now.entries) draft.old) draft.new result }
{
    for (key, value) in members {
        let Some(item) = value_named(enumeration, key.as_str()) else {
            return Some(NumberingFault::UnknownName);
        };
        let Some(number) = value.as_u64() else {
            return Some(NumberingFault::BadShape);
        };
        draft.set_value(item, number);
    }
    None
}

fn read_message(key: &str, value: &Value, draft: &mut NumberingDraft) -> Option<NumberingFault>
    ensures { said.Leaves (said.message_walked (message_named key.now) (as_object (view value.now)) draft.old) draft.new result }
{
    match message_named(key) {
        None => Some(NumberingFault::UnknownName),
        Some(message) => match value.as_object() {
            None => Some(NumberingFault::BadShape),
            Some(fields) => read_fields(message, fields, draft),
        },
    }
}

fn read_enumeration(key: &str, value: &Value, draft: &mut NumberingDraft) -> Option<NumberingFault>
    ensures { said.Leaves (said.enumeration_walked (named enumerations key.now) (as_object (view value.now)) draft.old) draft.new result }
{
    match enumeration_named(key) {
        None => Some(NumberingFault::UnknownName),
        Some(enumeration) => match value.as_object() {
            None => Some(NumberingFault::BadShape),
            Some(values) => read_values(enumeration, values, draft),
        },
    }
}

fn read_messages(members: &Map<String, Value>, draft: &mut NumberingDraft) -> Option<NumberingFault>
    ensures { said.Leaves (said.messages_walked (members_view members.now.entries) draft.old) draft.new result }
{
    for (key, value) in members {
        if let Some(fault) = read_message(key.as_str(), value, draft) {
            return Some(fault);
        }
    }
    None
}

fn read_enumerations(
    members: &Map<String, Value>,
    draft: &mut NumberingDraft,
) -> Option<NumberingFault>
    ensures { said.Leaves (said.enumerations_walked (members_view members.now.entries) draft.old) draft.new result }
{
    for (key, value) in members {
        if let Some(fault) = read_enumeration(key.as_str(), value, draft) {
            return Some(fault);
        }
    }
    None
}

// Whether the part of a name has the fields, or the enumerators.
fn part_named(key: &str) -> Option<bool>
    ensures { result ≡ named said.parts key.now }
{
    if key == "fields" {
        Some(true)
    } else if key == "values" {
        Some(false)
    } else {
        None
    }
}

fn read_part(key: &str, value: &Value, draft: &mut NumberingDraft) -> Option<NumberingFault>
    ensures { said.Leaves (said.part_walked (named said.parts key.now) (as_object (view value.now)) draft.old) draft.new result }
{
    match part_named(key) {
        None => Some(NumberingFault::UnknownName),
        Some(is_fields) => match value.as_object() {
            None => Some(NumberingFault::BadShape),
            Some(members) => {
                if is_fields {
                    read_messages(members, draft)
                } else {
                    read_enumerations(members, draft)
                }
            }
        },
    }
}

fn read_parts(members: &Map<String, Value>, draft: &mut NumberingDraft) -> Option<NumberingFault>
    ensures { said.Leaves (said.parts_walked (members_view members.now.entries) draft.old) draft.new result }
{
    for (key, value) in members {
        if let Some(fault) = read_part(key.as_str(), value, draft) {
            return Some(fault);
        }
    }
    None
}

// The numbering of a draft, which is valid.
fn finished(alloc: Global, draft: &NumberingDraft) -> Result<Numbering, NumberingFault>
    ensures { said.Reads (Ok draft.now) result }
{
    match draft.numbering(alloc) {
        Err(_) => Err(NumberingFault::NoMemory),
        Ok(None) => Err(NumberingFault::Invalid),
        Ok(Some(numbering)) => {
            numbering.all_are_valid();
            Ok(numbering)
        }
    }
}

fn numbering_in(alloc: Global, value: &Value) -> Result<Numbering, NumberingFault>
    ensures { said.Reads (said.file_walked (as_object (view value.now))) result }
{
    let Some(members) = value.as_object() else {
        return Err(NumberingFault::BadShape);
    };
    let Ok(mut draft) = NumberingDraft::new(alloc) else {
        return Err(NumberingFault::NoMemory);
    };
    match read_parts(members, &mut draft) {
        Some(fault) => Err(fault),
        None => finished(alloc, &draft),
    }
}

/// The numbering that a file's text gives, or why it gives none. A name that the file doesn't give keeps its default number.
#[tactic(auto, unfolding(crate::specs::File::file_numbers))]
pub fn read_numbering(alloc: Global, text: &[u8]) -> Result<Numbering, NumberingFault>
    ensures { said.Reads (said.file_numbers text.now) result }
{
    if text.len() > MOST_BYTES {
        return Err(NumberingFault::TooLong);
    }
    match std::str::from_utf8(text) {
        Err(_) => Err(NumberingFault::NotJson),
        Ok(text) => match Value::from_str(alloc, text) {
            Err(fault) => {
                if fault.is_memory() {
                    Err(NumberingFault::NoMemory)
                } else {
                    Err(NumberingFault::NotJson)
                }
            }
            Ok(value) => numbering_in(alloc, &value),
        },
    }
}
