ghost use Rattle.table_model.specs.declared.command.Config.{Config};
ghost use Rattle.table_model.specs.Laws.{HighestNeverFalls, LatestIsPrimary, LowerIsNotPrimary};

/// The highest election id never falls.
pub fn highest_never_falls()
    ensures { HighestNeverFalls }
{}

/// Who announces an id that is at least the highest is the primary: among equal ids the latest announcer.
pub fn latest_announcer_is_primary()
    ensures { (config : Config) → LatestIsPrimary config }
{}

/// Who announces a lower id isn't the primary, also if it was.
pub fn lower_id_is_not_primary()
    ensures { (config : Config) → LowerIsNotPrimary config }
{}
