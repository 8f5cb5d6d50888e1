// What the table says of all kinds together, and of tiers.
ghost use Rattle.lb_policy.specs.Laws.{PicksFollowState, WishesAreInView, RoundRobinGoesRound, NotingAgainChangesNothing, NoPickPassesAReadyTier, NoWishPassesATierThatHasNotFailed, ARecoveredTierIsUsed};
ghost use Rattle.lb_policy.specs.Runs.{FailedStaysOfTheView};

/// The laws of the table: a pick is a READY subchannel of the view exactly where the state is READY, fails exactly
/// where it is TRANSIENT_FAILURE, and waits otherwise. What is wished is in the view; and `round_robin` picks the
/// same subchannel again after as many turns as there are READY ones. Noting the same state again changes nothing.
pub fn laws_of_the_table()
    ensures picks { PicksFollowState }
    ensures wishes { WishesAreInView }
    ensures round { RoundRobinGoesRound }
    ensures noting { NotingAgainChangesNothing }
{}

/// The laws of `priority`: no pick names a tier while an earlier one is ready; a later tier is wished only where every
/// earlier one has failed. A tier that recovers while no earlier one is ready is used at the next pick.
pub fn laws_of_tiers()
    ensures picks { NoPickPassesAReadyTier }
    ensures wishes { NoWishPassesATierThatHasNotFailed }
    ensures recovery { ARecoveredTierIsUsed }
{}

/// Whatever calls are made of a policy, the failed subchannels are some of the view, in its order. They are each one that is in
/// TRANSIENT_FAILURE, none that is READY, and of the others those that failed and have not been READY since.
pub fn law_of_failed()
    ensures { FailedStaysOfTheView }
{}
