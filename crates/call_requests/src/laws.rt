ghost use Rattle.std.specs.Prelude.{◌≡◌, ◌≤◌, ◌∷◌, ℕ, List, None, All, length};
ghost use Rattle.schema_numbers.specs.Numbers.{Numbers};
ghost use Rattle.aft_entries.specs.declared.operation.Row.{Row};
ghost use Rattle.aft_entries.specs.InstanceNames.{fault_of};
ghost use Rattle.table_model.specs.declared.command.Command.TheVariants.{Select};
ghost use Rattle.table_model.specs.declared.command.Config.{Config};
ghost use Rattle.table_model.specs.declared.command.KindAsk.{KindAsk};
ghost use Rattle.table_model.specs.declared.command.Which.{Which};
ghost use Rattle.table_model.specs.declared.reply.Reply.TheVariants.{Selected};
ghost use Rattle.table_model.specs.Event.{Event};
ghost use Rattle.table_model.specs.Laws.{event};
ghost use Rattle.table_model.specs.Legal.{IsLawful};
ghost use Rattle.gribi_messages.specs.Rows.{RowHasKnownInstances};
ghost use Rattle.call_answers.specs.Answers.{MAX_MESSAGE_SIZE};
ghost use Rattle.call_requests.specs.Responses.{HasSixOctets, RowIsSound, get_responses};

/// The rows that a Select of a lawful history answers can be sent: they name configured instances, and each has a payload that
/// breaks no rule.
pub fn selected_rows_are_known()
    ensures known { (config : Config) (past : List Event) (which : Which) (kinds : KindAsk) (rows : List Row)
        → IsLawful config (event (Select which kinds) (Selected rows) ∷ past) → All (RowHasKnownInstances config.instances) rows }
    ensures sound { (config : Config) (past : List Event) (which : Which) (kinds : KindAsk) (rows : List Row)
        → IsLawful config (event (Select which kinds) (Selected rows) ∷ past) → All (RowIsSound config.instances) rows }
{
    table_laws::selected_rows_are_known();
}

/// No message of an answer to a Get is longer than a message of gRPC may be: of rows with payloads that break no rule, under names
/// of instances that are taken.
pub fn responses_are_short()
    ensures { (n : Numbers) (names : List (List ℕ)) (count : ℕ) (rows : List Row) → fault_of names ≡ None
        → All (RowIsSound count) rows → All (λ row. HasSixOctets row.entry.payload) rows
        → All (λ bytes. length bytes ≤ MAX_MESSAGE_SIZE) (get_responses n names rows) }
{}
