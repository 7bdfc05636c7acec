//! Verdicts of expect lines.
ghost use Rattle.std.specs.Prelude.{◌≡◌, ◌∷◌};
ghost use Rattle.schema_numbers.specs.Numbers.{Numbers};
ghost use Rattle.compliance_client.specs.Standing.{Past, StandsAs};
ghost use Rattle.std.specs.List.{find};
ghost use Rattle.std.specs.Option.{option_and_then};
ghost use Rattle.line_verdicts.specs.Verdicts.{judged};
ghost use Rattle.compliance_client.specs.Deeds.{Judges, call_name, call_of, change_first, is_named, judges};

use crate::conn::ClientConn;
use grpc_stream::CallConnection;
use line_verdicts::Judged;
use script_lang::Line;

impl<K: CallConnection> ClientConn<K> {
    /// The verdict of an expect line over what its call has given so far, less the items that earlier lines used, or `None` where it still
    /// waits; also where no line began its call. The item that a Pass rests on is used up, and nothing else changes.
    pub fn judge_line(&mut self, line: &Line) -> Option<Judged>
        ensures verdict { result ≡ option_and_then (λ c. judged line.now c.heard) (call_of line.now self.old.kept.items) }
        ensures left { self.new.kept.items ≡ change_first (is_named (call_name line.now)) (judges line.now) self.old.kept.items }
        ensures goes { (n : Numbers) (past : Past)
            → StandsAs K.stands n self.old.over self.old.calls self.old.kept.items self.old.tally past
            → StandsAs K.stands n self.new.over self.new.calls self.new.kept.items self.new.tally
            (record { trace = past.trace; deeds = Judges line.now ∷ past.deeds; pieces = past.pieces }) }
        ensures same { self.new ≡ record self.old { kept = self.new.kept } }
    {
        match self.place_of(line) {
            None => None,
            Some(at) => self.kept[at].judge(line),
        }
    }
}
