// The frame of links; nothing runs.
ghost use Rattle.channel_actions.specs.LinkFrames.Laws.{ActionsMakeNoDifference, FewerSeeNone, LinksStay, ListsMakeNoDifference, NothingMakesADifference, OthersAgree, DifferencesJoin};

/// Links that an action does not bear on agree with the session as before, with their streams, their readers and the lines that they are fed with; so all agree
/// again where those that it bears on do.
pub fn links_stay()
    ensures others { OthersAgree }
    ensures all { LinksStay }
{}

/// An action makes no difference to the links on which it does not bear, nor does a list of actions.
pub fn actions_make_no_difference()
    ensures nothing { NothingMakesADifference }
    ensures joins { DifferencesJoin }
    ensures fewer { FewerSeeNone }
    ensures action { ActionsMakeNoDifference }
    ensures list { ListsMakeNoDifference }
{}
