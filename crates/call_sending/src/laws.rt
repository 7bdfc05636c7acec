//! Laws of what is sent of calls, each an empty function whose contract it is.
ghost use Rattle.call_sending.specs.Laws.{BlocksMove, OthersSpellOn, TakenIsKept, TurnsEnd, TurnsSpell};

/// A header block that is sent on an open stream adds its fields to it, and nothing to any other.
pub fn blocks_move()
    ensures { BlocksMove }
{}

/// A turn of a call sends on its stream alone, and what is sent of every call spells what was taken for it, as before.
pub fn turns_spell()
    ensures { TurnsSpell }
{}

/// Behind a turn that no other may follow nothing more may be sent of its call; and that stays so, whatever is sent
/// that begins no stream.
pub fn turns_end()
    ensures { TurnsEnd }
{}

/// Behind a frame of no stream's data or header blocks what is sent of every call spells the same; and behind the
/// reset of a live stream too.
pub fn others_spell_on()
    ensures { OthersSpellOn }
{}

/// A message or an end that is taken for an open stream is to be sent behind what is left, and what is sent of every
/// other call spells the same.
pub fn taken_is_kept()
    ensures { TakenIsKept }
{}
