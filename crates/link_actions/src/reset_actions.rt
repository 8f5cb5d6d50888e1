// Several attempts that are cut off, as actions of a session; nothing runs.
ghost use Rattle.link_actions.specs.ResetActions.Laws.{CutsGoAhead, GoawaysGoAhead, GoawaysOweResets, NoneIsAhead, NoneIsLeft, ResetsCatchUp, SealsKeep, WaitsAreCut};

/// Attempts on one link that are cut off by one action end one after the other; their resets stand in the order of their streams in both (RFC 9113,
/// section 6.4).
pub fn several_are_cut()
    ensures seals { SealsKeep }
    ensures begins { NoneIsAhead }
    ensures ends { NoneIsLeft }
    ensures cuts { CutsGoAhead }
    ensures waits { WaitsAreCut }
    ensures resets { ResetsCatchUp }
{}

/// After GOAWAY, and before any stream is reset, a link is as a session is in which all attempts have ended that it ends, but ahead by the resets that this session
/// owes. That is one with CANCEL for each stream that GOAWAY leaves out, the lowest first (RFC 9113, section 6.8).
pub fn goaways_go_ahead()
    ensures ahead { GoawaysGoAhead }
    ensures owed { GoawaysOweResets }
{}
