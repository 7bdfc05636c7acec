//! Laws of what `apply` makes of an input.
ghost use Rattle.std.specs.Prelude.{◌≡◌, ℕ, List, [], None};
ghost use Rattle.std.specs.List.{flat_map};
ghost use Rattle.call_answers.specs.declared.orders.Setting.{Setting};
ghost use Rattle.table_model.specs.declared.job.Verdict.{Verdict};
ghost use Rattle.table_model.specs.Legal.{IsLawful};
ghost use Rattle.inline_worker.specs.Turns.{behind, failures};
ghost use Rattle.message_run.specs.Behaviour.{trace_from};
ghost use Rattle.message_run.specs.Outcomes.{outcome_of};
ghost use Rattle.apply_path.specs.History.{answer_bytes, up_to_end, first_end};
ghost use Rattle.apply_path.specs.Responses.{apply_behaviour, config_of, begun, history, history_with_leave};
ghost use Rattle.apply_path.specs.Laws.{events_of, readable, first_unreadable, ending_by};

use aft_entries::checked_entries_fit;

/// What is written for messages are the framed answers of the one-thread server's history: of all their commands and of the turns of
/// worker and session behind each message, up to the first reply that ends the stream, and of the messages before the first that
/// can't be read. Where no reply ends the stream, they are those of the whole history, and all those messages are done. The stream
/// ends by that reply, and else at the field that can't be read of the first message that has one.
pub fn answers_match_the_server()
    ensures answers { (s : Setting) (said : List Verdict) (messages : List (List ℕ)) →
        (trace_from (apply_behaviour s said) [] messages).written
        ≡ flat_map (answer_bytes s.numbering) (up_to_end (events_of s said messages)) }
    ensures whole { (s : Setting) (said : List Verdict) (messages : List (List ℕ)) → first_end (events_of s said messages) ≡ None →
        (trace_from (apply_behaviour s said) [] messages).written ≡ flat_map (answer_bytes s.numbering) (events_of s said messages) }
    ensures ends { (s : Setting) (said : List Verdict) (messages : List (List ℕ)) →
        (trace_from (apply_behaviour s said) [] messages).ending
        ≡ ending_by (first_end (events_of s said messages)) (first_unreadable s messages) }
    ensures done { (s : Setting) (said : List Verdict) (messages : List (List ℕ)) → first_end (events_of s said messages) ≡ None →
        (trace_from (apply_behaviour s said) [] messages).done ≡ readable s messages }
{}

/// The history of messages is lawful, also with the session's Leave behind it, and so is that of the events whose answers are
/// written: each reply in it is the one-thread server's, and each entry has a payload of its key's kind. So each law of lawful
/// histories holds of them.
pub fn histories_are_lawful()
    ensures history { (s : Setting) (said : List Verdict) (messages : List (List ℕ)) → IsLawful (config_of s) (history s said messages) }
    ensures left { (s : Setting) (said : List Verdict) (messages : List (List ℕ)) →
        IsLawful (config_of s) (history_with_leave s said messages) }
    ensures answered { (s : Setting) (said : List Verdict) (messages : List (List ℕ)) →
        IsLawful (config_of s) (behind (begun s) (up_to_end (events_of s said messages))) }
{
    checked_entries_fit();
}

/// With a device that never failed, an input comes to what it comes to with one that does all that it is asked, so that what is
/// written is a function of the input alone; and so does the history.
pub fn output_rests_on_the_input()
    ensures outcome { (s : Setting) (said : List Verdict) (input : List ℕ) → failures said ≡ 0 →
        outcome_of (apply_behaviour s said) input ≡ outcome_of (apply_behaviour s []) input }
    ensures history { (s : Setting) (said : List Verdict) (messages : List (List ℕ)) → failures said ≡ 0 →
        history s said messages ≡ history s [] messages }
{}
