ghost use Rattle.std.specs.Prelude.{◌≡◌, [], None, OnOk, OnErr, length};
ghost use Rattle.line_verdicts.specs.Items as spec;
ghost use Rattle.line_verdicts.specs.Verdicts.{expected, item_judged, judged, left_by, used};
ghost use Rattle.script_lang.specs.Lines.{line_words};

use crate::messages::{append_flush, append_modify};
use crate::seen::{Judged, Seen, SeenEnd};
use crate::verdict::{end_judged, entries_judged, match_place, unmatched};
use gribi_messages::{FlushResponse, GetResponse, ModifyResponse};
use schema_numbers::Numbering;
use script_lang::Line;
use std::alloc::{AllocError, Global};
use std::marker::Model;

/// What a call has given so far. Contracts see the items that no line used, the count of entries, and the end.
#[derive(Drop)]
pub struct CallItems {
    unused: Vec<Seen>,
    entries: u64,
    ended: Option<SeenEnd>,
}

impl Model for CallItems {
    ghost use Rattle.line_verdicts.specs.Items.{Heard};

    ghost Value = { Heard };

    ghost view = { λ c. record { unused = c.unused.items; entries = c.entries; ended = c.ended } };
}

impl CallItems {
    /// Nothing so far. Takes no memory.
    pub fn new(alloc: Global) -> CallItems
        ensures { result ≡ record { unused = []; entries = 0; ended = None } }
    {
        CallItems {
            unused: Vec::new(alloc),
            entries: 0,
            ended: None,
        }
    }

    /// Takes an answer of a Modify call. After want of memory nothing has changed.
    pub fn take_modify(&mut self, n: &Numbering, r: &ModifyResponse) -> Result<(), AllocError>
        ensures ok { OnOk result (self.new ≡ spec.with_items (spec.modify_items n.now r.now) self.old) }
        ensures err { OnErr result (self.new ≡ self.old) }
    {
        append_modify(n, r, &mut self.unused)
    }

    /// Takes an answer of a Get call.
    pub fn take_get(&mut self, r: &GetResponse)
        ensures { self.new ≡ spec.with_entries (length r.now.rows) self.old }
    {
        let more = r.rows.as_slice().len() as u64;
        self.entries = self.entries.saturating_add(more);
    }

    /// Takes an answer of a Flush call. After want of memory nothing has changed.
    pub fn take_flush(&mut self, n: &Numbering, r: FlushResponse) -> Result<(), AllocError>
        ensures ok { OnOk result (self.new ≡ spec.with_items (spec.flush_items n.now r.result) self.old) }
        ensures err { OnErr result (self.new ≡ self.old) }
    {
        append_flush(n, r.result, &mut self.unused)
    }

    /// The call has ended. Where it had ended before, its first end stays.
    pub fn end(&mut self, ending: SeenEnd)
        ensures { self.new ≡ spec.with_end ending self.old }
    {
        if self.ended.is_none() {
            self.ended = Some(ending);
        }
    }

    /// The verdict of an expect line, or `None` where it still waits. The item that a Pass rests on is used up; nothing else changes.
    pub fn judge(&mut self, line: &Line) -> Option<Judged>
        ensures verdict { result ≡ judged line.now self.old }
        ensures left { self.new ≡ left_by line.now self.old }
    {
        match line {
            Line::ExpectEntries(_) => match self.ended {
                None => None,
                Some(_) => Some(entries_judged(line, self.entries)),
            },
            Line::ExpectEnd(_) => match self.ended {
                None => None,
                Some(ending) => Some(end_judged(line, ending)),
            },
            _ => self.judge_item(line),
        }
    }

    // The verdict of a line that names an item.
    #[tactic(auto, unfolding(crate::specs::Verdicts::item_judged))]
    fn judge_item(&mut self, line: &Line) -> Option<Judged>
        ensures verdict { result ≡ item_judged (expected (line_words line.now)) self.old }
        ensures left { self.new ≡ used (expected (line_words line.now)) self.old }
    {
        match match_place(line, self.unused.as_slice()) {
            None => unmatched(line, self.unused.as_slice(), self.ended),
            Some(place) => {
                self.unused.remove(place);
                Some(Judged::Pass)
            }
        }
    }
}
