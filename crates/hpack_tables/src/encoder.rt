//! The encoder of header blocks.
ghost use Rattle.std.specs.Prelude.{◌≡◌, ◌+◌, ◌≤◌, ◌++◌, List, ℕ, length, sum_by, IfOk, IsOk, OnOk, OnErr};
ghost use Rattle.std.specs.Vec.{vec_capacity, vec_len};
ghost use Rattle.hpack_tables.specs.EntrySizes.{size_of};
ghost use Rattle.hpack_tables.specs.Laws.{AreBytes};
ghost use Rattle.hpack_tables.specs.Writing.{Encoder, Writes, fresh, limited};
ghost use Rattle.hpack_tables.specs.declared.encoder.Style.TheVariants.{Plain};

use crate::field::Field;
use crate::fields::Fields;
use crate::table::Table;
use std::alloc::{AllocError, Global};
use std::marker::Model;

mod field_bytes;
mod field_texts;
mod integers;
mod strings;

/// How an encoder writes fields.
#[derive(Clone, Copy, Debug, PartialEq, Eq)]
pub enum Style {
    /// Static indexes, literals without indexing and plain strings.
    Plain,
    /// Static and dynamic indexes, literals with incremental indexing, and strings with Huffman
    /// where that is shorter.
    Indexed,
}

/// How many bytes a block of these fields has at most: a size update, and each field as a literal.
#[tactic(auto, using(crate::proofs::FieldsWritten::sum_here, crate::proofs::FieldsWritten::none_left))]
pub fn block_room(fields: &[Field]) -> usize
    requires { sum_by size_of fields.now ≤ 65536 }
    ensures { result ≡ 6 + sum_by size_of fields.now }
{
    let mut room = 6;
    for field in fields {
        room += field.size() as usize;
    }
    room
}

/// A block that is written and not sent yet, and the table behind it.
#[derive(Drop)]
pub struct EncodedBlock {
    style: Style,
    table: Table,
    text: Vec<u8>,
}

impl Model for EncodedBlock {
    ghost use Rattle.std.specs.Prelude.{false};
    ghost use Rattle.hpack_tables.specs.EncodedBlocks.{EncodedBlock};

    ghost Value = { EncodedBlock };

    ghost view = { λ d. record {
      text = d.text.items;
      after = record { style = d.style; entries = d.table.items; max = d.table.max; is_lowered = false };
    } };
}

impl EncodedBlock {
    /// The bytes of the block.
    pub fn text(&self) -> &[u8]
        ensures { result.now ≡ self.now.text }
    {
        self.text.as_slice()
    }
}

/// Writes header blocks, one after another, over one table.
#[derive(Drop)]
pub struct HeaderEncoder {
    alloc: Global,
    style: Style,
    table: Table,
    is_lowered: bool,
}

impl Model for HeaderEncoder {
    ghost use Rattle.hpack_tables.specs.Writing.{Encoder};

    ghost Value = { Encoder };

    ghost view = { λ e. record { style = e.style; entries = e.table.items; max = e.table.max; is_lowered = e.is_lowered } };
}

impl HeaderEncoder {
    /// An encoder with an empty table of 4,096 bytes.
    pub fn new(alloc: Global, style: Style) -> Result<HeaderEncoder, AllocError>
        ensures { IfOk result (λ e. e ≡ fresh style) }
    {
        Ok(HeaderEncoder {
            alloc,
            style,
            table: Table::new(alloc, 4096),
            is_lowered: false,
        })
    }

    /// Tells the encoder that the peer announced a table of so many bytes. Where that is less than
    /// the table has, the table becomes so small, and the next block says so; it is never raised
    /// again. Takes no memory.
    pub fn limit(&mut self, size: u32)
        ensures { self.new ≡ limited size self.old }
    {
        if size < self.table.max() {
            self.table.resize(size);
            self.is_lowered = true;
        }
    }

    /// Writes the block of the fields, and leaves the encoder as it is until the block is kept.
    ///
    /// # Errors
    ///
    /// Where there is no memory.
    pub fn draft(&self, fields: &Fields) -> Result<EncodedBlock, AllocError>
        requires { sum_by size_of fields.now ≤ 65536 }
        ensures writes { IfOk result (λ draft. Writes self.now fields.now draft.text draft.after) }
        ensures len { IfOk result (λ draft. length draft.text ≤ 6 + sum_by size_of fields.now) }
        ensures bytes { AreBytes fields.now }
    {
        field_bytes::are_bytes(fields);
        let mut table = self.table.share(self.alloc)?;
        let mut text = Vec::with_capacity(self.alloc, block_room(fields.as_slice()))?;
        field_texts::put_update(self.is_lowered, table.max(), &mut text);
        field_texts::put_fields(
            self.alloc,
            self.style,
            &mut table,
            fields.as_slice(),
            &mut text,
        )?;
        Ok(EncodedBlock {
            style: self.style,
            table,
            text,
        })
    }

    /// Takes that a draft of this encoder was sent. Takes no memory.
    pub fn keep(&mut self, draft: EncodedBlock)
        ensures { self.new ≡ draft.after }
    {
        let EncodedBlock {
            style,
            table,
            text: _,
        } = draft;
        self.style = style;
        self.table = table;
        self.is_lowered = false;
    }

    /// Adds a plain block, for which there is room. It fails never.
    fn put_plain(&mut self, fields: &Fields, out: &mut Vec<u8>) -> Result<(), AllocError>
        requires style { self.old.style ≡ Plain }
        requires size { sum_by size_of fields.now ≤ 65536 }
        requires room { vec_len out.old + (6 + sum_by size_of fields.now) ≤ vec_capacity out.old }
        ensures ok { OnOk result ((text : List ℕ) × (out.new.items ≡ out.old.items ++ text)
            × Writes self.old fields.now text self.new) }
        ensures never { IsOk result }
        ensures len { OnOk result (vec_len out.new ≤ vec_len out.old + (6 + sum_by size_of fields.now)) }
        ensures capacity { vec_capacity out.old ≤ vec_capacity out.new }
    {
        field_texts::put_update(self.is_lowered, self.table.max(), out);
        field_texts::put_fields(
            self.alloc,
            Style::Plain,
            &mut self.table,
            fields.as_slice(),
            out,
        )?;
        self.is_lowered = false;
        Ok(())
    }

    /// Adds the block of the fields. A plain one takes no memory where there is room for it. Fails only for want of
    /// memory, and then nothing has changed.
    pub fn block(&mut self, fields: &Fields, out: &mut Vec<u8>) -> Result<(), AllocError>
        requires { sum_by size_of fields.now ≤ 65536 }
        ensures ok { OnOk result ((text : List ℕ) × (out.new.items ≡ out.old.items ++ text)
            × Writes self.old fields.now text self.new) }
        ensures bytes { AreBytes fields.now }
        ensures err { OnErr result ((out.new.items ≡ out.old.items) × (self.new ≡ self.old)) }
        ensures plain { self.old.style ≡ Plain → vec_len out.old + (6 + sum_by size_of fields.now) ≤ vec_capacity out.old → IsOk result }
        ensures len { OnOk result (vec_len out.new ≤ vec_len out.old + (6 + sum_by size_of fields.now)) }
        ensures capacity { vec_capacity out.old ≤ vec_capacity out.new }
    {
        field_bytes::are_bytes(fields);
        out.reserve(block_room(fields.as_slice()))?;
        match self.style {
            Style::Plain => self.put_plain(fields, out),
            Style::Indexed => {
                let draft = self.draft(fields)?;
                out.extend_from_slice(draft.text())?;
                self.keep(draft);
                Ok(())
            }
        }
    }
}
