ghost use Rattle.std.specs.Prelude.{◌≡◌, ◌++◌, ◌==◌, [], true, IfOk, IfSome, OnOk, OnErr, None};
ghost use Rattle.std.specs.List.{last_or};
ghost use Rattle.std.specs.Option.{option_map, option_map_or};
ghost use Rattle.std.specs.Str.{IsUtf8};
ghost use Rattle.gribi_messages.specs.GetAndFlush.{last_member_at as last_member, instance_ask as ask_said, instance_field};

use crate::asks::InstanceAsk;
use aft_entries::Name;
use proto_schema::member_of;
use proto_wire::{FieldReader, Next, write_bytes};
use std::alloc::{AllocError, Global};

/// A name of these bytes.
pub fn name_of(alloc: Global, bytes: &[u8]) -> Result<Name, AllocError>
    requires { IsUtf8 bytes.now }
    ensures { IfOk result (λ name. name ≡ bytes.now) }
{
    match std::str::from_utf8(bytes) {
        Ok(text) => Ok(Name::from_string(String::from_str(alloc, text)?)),
        Err(_) => unreachable!(),
    }
}

// The last member of a oneof, and its last occurrence.
#[tactic(auto, unfolding(crate::specs::GetAndFlush::last_member_at))]
fn last_member_at<'a>(among: &[u32], bytes: &'a [u8]) -> Option<(u32, &'a [u8])>
    ensures { option_map (λ m. (m.0, m.1.now)) result ≡ last_member among.now bytes.now }
{
    let mut last = None;
    let mut reader = FieldReader::new(bytes);
    loop {
        match reader.next() {
            Next::Field(field) => {
                if let Some(piece) = member_of(among, &field) {
                    last = Some((field.number, piece));
                }
            }
            _ => return last,
        }
    }
}

/// The instances that a oneof asks for: one of this field's name, or all.
pub fn instance_of(
    alloc: Global,
    name: u32,
    among: &[u32],
    bytes: &[u8],
) -> Result<Option<InstanceAsk>, AllocError>
    requires { IfSome (last_member among.now bytes.now) (λ m. (m.0 == name) ≡ true → IsUtf8 m.1) }
    ensures { IfOk result (λ ask. ask ≡ option_map (ask_said name) (last_member among.now bytes.now)) }
{
    match last_member_at(among, bytes) {
        None => Ok(None),
        Some((number, text)) => {
            if number == name {
                Ok(Some(InstanceAsk::Named(name_of(alloc, text)?)))
            } else {
                Ok(Some(InstanceAsk::All))
            }
        }
    }
}

/// Appends the member of a oneof that asks for the instances.
pub fn write_instance(
    name: u32,
    all: u32,
    instance: &Option<InstanceAsk>,
    out: &mut Vec<u8>,
) -> Result<(), AllocError>
    ensures ok { OnOk result (out.new.items ≡ out.old.items ++ option_map_or (instance_field name all) instance.now []) }
    ensures err { OnErr result (out.new.items ≡ out.old.items) }
{
    match instance {
        None => Ok(()),
        Some(InstanceAsk::All) => write_bytes(all, b"", out),
        Some(InstanceAsk::Named(text)) => write_bytes(name, text.as_str().as_bytes(), out),
    }
}
