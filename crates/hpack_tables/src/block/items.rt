ghost use Rattle.std.specs.Prelude.{◌≡◌, ◌<◌, ◌≤◌, Bool, true, false, length, IfOk};
ghost use Rattle.hpack_tables.specs.Answers.{IsAllowedBy};
ghost use Rattle.hpack_tables.specs.Progress.{state_of};
ghost use Rattle.hpack_tables.specs.Reading.{before, with_field, resized, IndexedAt, ResizeAt, NameAt, LiteralAt, ItemAt, BlockAt};

use super::Progress;
use crate::fault::HpackFault;
use crate::field::Field;
use crate::integer::integer;
use crate::string::string;
use bytes::Bytes;
use std::alloc::Global;

const MAX_LIST: u64 = 65_536;

impl Progress {
    /// Adds a field, and lets the table take it or not.
    fn add(&mut self, taken: bool, name: Bytes, value: Bytes) -> Result<(), HpackFault>
        ensures { IsAllowedBy (λ _. state_of self.new) result (λ out. out ≡ with_field taken (state_of self.old) (record { name = name; value = value })) }
    {
        if name.len() > 65_536 || value.len() > 65_536 {
            return Err(HpackFault::ListTooLong);
        }
        let field = Field { name, value };
        let size = field.size();
        if self.list_size + size > MAX_LIST {
            return Err(HpackFault::ListTooLong);
        }
        if taken {
            self.table.insert(field.clone()?)?;
        }
        self.fields.push(field)?;
        self.list_size += size;
        Ok(())
    }

    fn resize(&mut self, limit: u32, size: u32) -> Result<(), HpackFault>
        ensures { IsAllowedBy (λ _. state_of self.new) result (λ out. out ≡ resized limit (state_of self.old) size) }
    {
        if !self.fields.as_slice().is_empty() {
            return Err(HpackFault::LateSizeUpdate);
        }
        if size > limit {
            return Err(HpackFault::SizeTooLarge);
        }
        self.table.resize(size);
        Ok(())
    }

    fn indexed<'a>(&mut self, bytes: &'a [u8]) -> Result<&'a [u8], HpackFault>
        ensures read { IsAllowedBy (λ rest. (state_of self.new, rest.now)) result (IndexedAt (state_of self.old) bytes.now) }
        ensures shorter { IfOk result (λ rest. length rest.now < length bytes.now) }
    {
        let (index, rest) = integer(HpackFault::BadInteger, 7, bytes)?;
        let Field { name, value } = self.table.get(index)?;
        self.add(false, name, value)?;
        Ok(rest)
    }

    fn resizes<'a>(&mut self, limit: u32, bytes: &'a [u8]) -> Result<&'a [u8], HpackFault>
        ensures read { IsAllowedBy (λ rest. (state_of self.new, rest.now)) result (ResizeAt limit (state_of self.old) bytes.now) }
        ensures shorter { IfOk result (λ rest. length rest.now < length bytes.now) }
    {
        let (size, rest) = integer(HpackFault::BadInteger, 5, bytes)?;
        self.resize(limit, size)?;
        Ok(rest)
    }

    /// The name of a literal: that of an entry, or a string.
    fn name<'a>(
        &self,
        alloc: Global,
        index: u32,
        rest: &'a [u8],
    ) -> Result<(Bytes, &'a [u8]), HpackFault>
        ensures read { IsAllowedBy (λ x. (x.0, x.1.now)) result (NameAt (state_of self.now) index rest.now) }
        ensures shorter { IfOk result (λ x. length x.1.now ≤ length rest.now) }
    {
        if index == 0 {
            return string(alloc, rest);
        }
        let Field { name, value: _ } = self.table.get(index)?;
        Ok((name, rest))
    }

    fn literal<'a>(
        &mut self,
        alloc: Global,
        taken: bool,
        prefix: u32,
        bytes: &'a [u8],
    ) -> Result<&'a [u8], HpackFault>
        requires { prefix < 8 }
        ensures read { IsAllowedBy (λ rest. (state_of self.new, rest.now)) result (LiteralAt taken prefix (state_of self.old) bytes.now) }
        ensures shorter { IfOk result (λ rest. length rest.now < length bytes.now) }
    {
        let (index, rest) = integer(HpackFault::BadInteger, prefix, bytes)?;
        let (name, rest) = self.name(alloc, index, rest)?;
        let (value, rest) = string(alloc, rest)?;
        self.add(taken, name, value)?;
        Ok(rest)
    }

    /// Reads the item in front, which begins with this byte.
    fn item<'a>(
        &mut self,
        alloc: Global,
        limit: u32,
        first: u8,
        bytes: &'a [u8],
    ) -> Result<&'a [u8], HpackFault>
        ensures read { IsAllowedBy (λ rest. (state_of self.new, rest.now)) result (ItemAt limit (state_of self.old) first bytes.now) }
        ensures shorter { IfOk result (λ rest. length rest.now < length bytes.now) }
    {
        if first >= 128 {
            self.indexed(bytes)
        } else if first >= 64 {
            self.literal(alloc, true, 6, bytes)
        } else if first >= 32 {
            self.resizes(limit, bytes)
        } else {
            self.literal(alloc, false, 4, bytes)
        }
    }

    /// Reads what is left of a block.
    pub fn items(&mut self, alloc: Global, limit: u32, block: &[u8]) -> Result<(), HpackFault>
        ensures { IsAllowedBy (λ _. state_of self.new) result (BlockAt limit (state_of self.old) block.now) }
    {
        let mut left = block;
        while let [first, ..] = left {
            left = self.item(alloc, limit, *first, left)?;
        }
        Ok(())
    }
}
