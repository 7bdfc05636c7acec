use rig_io::{Source, Took};

/// A source that gives at most `size` bytes at a time, and at least one.
#[derive(Drop)]
pub struct ChunkedSource<'a> {
    pub rest: &'a [u8],
    pub size: usize,
}

impl<'a> Source for ChunkedSource<'a> {
    ghost use Rattle.std.specs.Prelude.{None};

    ghost taken = { λ _. None };

    ghost left = { λ _. None };

    ghost faults = { λ _. 0 };

    fn take(&mut self, buffer: &mut [u8]) -> Took {
        let count = self.size.max(1).min(self.rest.len()).min(buffer.len());
        if count == 0 {
            return Took::End;
        }
        let (front, rest) = self.rest.split_at(count);
        buffer[..count].copy_from_slice(front);
        self.rest = rest;
        Took::Got(count)
    }
}
