// What holds of a net over whole runs.
ghost use Rattle.channel_net.specs.Laws.{LiveWhereListed, NumbersStay, LinksAreOfTheBoard, GenerationsAreKept, LiveKindsDiffer, AsksReachTheCurrent, AnswersAreOfTheTable, TurnsAreAsks, ViewsAreOfTheBoard, NothingIsDue, NothingWaits};

use policy_rack::laws_of_runs;

/// The laws of subchannels, whatever calls are made of a net and in whichever order: an address has one live subchannel
/// while a live generation was given it, and else none. A number is that of one subchannel for good; and a subchannel has a
/// link of its own exactly where it is READY, or CONNECTING with a dial that is a link.
pub fn laws_of_subchannels()
    ensures listed { LiveWhereListed }
    ensures numbers { NumbersStay }
    ensures links { LinksAreOfTheBoard }
{}

/// The laws of generations, whatever calls are made of a net and in whichever order: a pending one stands only beside a
/// current one, and is of another kind. One that is dropped or replaced is reset in that very call.
pub fn laws_of_generations()
    ensures kept { GenerationsAreKept }
    ensures kinds { LiveKindsDiffer }
{
    laws_of_runs();
}

/// The laws of pick requests: one changes no policy but that of the current generation, whose answer is that of the table.
/// Whatever calls are made of a net, the turns of the current generation are the pick requests that it answered.
pub fn laws_of_asks()
    ensures current { AsksReachTheCurrent }
    ensures answers { AnswersAreOfTheTable }
    ensures turns { TurnsAreAsks }
{
    laws_of_runs();
}

/// The law of views, whatever calls are made of a net: the view of a live generation is the list of its addresses, each as
/// the live subchannel that it has, with its state.
pub fn laws_of_views()
    ensures { ViewsAreOfTheBoard }
{
    laws_of_runs();
}

/// After the clock reached a moment, nothing is left that it changes by then. After a net settled, no pending generation
/// may take over, and no live generation wishes an IDLE subchannel.
pub fn laws_of_settling()
    ensures due { NothingIsDue }
    ensures waits { NothingWaits }
{}
