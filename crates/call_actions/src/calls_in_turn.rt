// What a session keeps of a call's attempts, from one action to the next; nothing runs.
ghost use Rattle.call_actions.specs.CallsInTurn.Laws.{CallsStart, CommittingKeeps, EndingKeeps, EndsKeep, FinishesKeep, MakingKeeps, MessagesKeep, OthersAreSteady, PlacingKeeps, RetryingKeeps, TakesKeep, WithheldKeep};

/// Before its first attempt all is in order; and what is of another call, or of none, leaves it so.
pub fn calls_start_in_order()
    ensures start { CallsStart }
    ensures others { OthersAreSteady }
{}

/// What its application posts, a hedge that is withheld, and the end of the call keep it (gRPC, "Core concepts": RPC life cycle; gRFC A6, "Throttling Retry
/// Attempts and Hedged RPCs").
pub fn posts_keep_order()
    ensures messages { MessagesKeep }
    ensures finishes { FinishesKeep }
    ensures takes { TakesKeep }
    ensures withheld { WithheldKeep }
    ensures ends { EndsKeep }
{}

/// An attempt that is made, placed, committed to or ended keeps it: of a call that is retried one attempt goes on at a time (gRFC A6, "Retry Policy"), and
/// none waits for its follower (gRFC A6, "Transparent Retries").
pub fn attempts_keep_turn()
    ensures made { MakingKeeps }
    ensures placed { PlacingKeeps }
    ensures committed { CommittingKeeps }
    ensures ended { EndingKeeps }
    ensures retried { RetryingKeeps }
{}
