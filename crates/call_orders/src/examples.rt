//! Worked cases of the definitions.
ghost use Rattle.std.specs.Prelude.{◌≡◌, ℕ, List, [], ◌∷◌, None, Ok, pos};
ghost use Rattle.aft_entries.specs.declared.operation.Row.{Row};
ghost use Rattle.proto_schema.specs.declared.schema.MessageKind.TheVariants as message;
ghost use Rattle.proto_schema.specs.Legal.{first_fault};
ghost use Rattle.call_answers.specs.Orders.{orders_of};
ghost use Rattle.call_answers.specs.declared.orders.Setting.{Setting};
ghost use Rattle.table_model.specs.declared.command.Command.TheVariants.{Select, Flush};
ghost use Rattle.table_model.specs.declared.command.FlushBy.TheVariants.{Override};
ghost use Rattle.table_model.specs.declared.command.KindAsk.TheVariants as kinds;
ghost use Rattle.table_model.specs.declared.command.Which.TheVariants as which;
ghost use Rattle.table_model.specs.declared.params.AskedParams.{AskedParams};
ghost use Rattle.table_model.specs.declared.params.Params.{Params};
ghost use Rattle.call_orders.specs.Requests.{get_asked, flush_asked};
ghost use Rattle.call_orders.specs.Examples.{RefusedCalls, GoingCalls, ShortCalls, RightCalls, operation};

/// Refusals by a reply.
pub fn refused_calls()
    ensures { (s : Setting) (m : List ℕ) (asked : AskedParams) (other : Params)
        → first_fault s.numbering message.ModifyRequest m ≡ None → RefusedCalls s m asked other }
{}

/// Calls that go on, and their ends.
pub fn going_calls()
    ensures { (s : Setting) (m : List ℕ) (asked : AskedParams) → first_fault s.numbering message.ModifyRequest m ≡ None → GoingCalls s m asked }
{}

/// Gets and Flushes.
pub fn short_calls()
    ensures { (s : Setting) (get flush : List ℕ) (row : Row) → get_asked s get ≡ Ok (Select which.All kinds.All)
        → flush_asked s flush ≡ Ok (Flush Override which.All (pos 0)) → ShortCalls s get flush row }
{}

/// Actions that may be taken for a message of three operations.
pub fn right_calls()
    ensures { (s : Setting) (m : List ℕ) → first_fault s.numbering message.ModifyRequest m ≡ None
        → orders_of s m ≡ record { params = None; election = None; operations = operation 1 ∷ operation 2 ∷ operation 3 ∷ [] } → RightCalls s m }
{}
