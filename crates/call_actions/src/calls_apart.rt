// What an action of one call leaves of every other one; nothing runs.
ghost use Rattle.call_actions.specs.CallsApart.Laws.{ApartJoins, BooksAlong, BooksBegin, BooksStay, LedgersAreShared, LinesAreFair, OthersAlong, OthersAreInOrder, OthersAreInTurn, OthersAreSeen, OthersStay, TokensAreShared, TokensStay};

/// An action of one call, or of a policy, a subchannel, a link or the entry, changes nothing of another call: neither its marks nor its attempts nor its
/// config (gRPC, "Core concepts": RPC life cycle).
pub fn others_are_apart()
    ensures one { OthersStay }
    ensures several { ApartJoins }
    ensures along { OthersAlong }
{}

/// Where nothing changed of a call, session and channel agree of it as before, and what a session keeps in order of it is so still.
pub fn others_agree()
    ensures seen { OthersAreSeen }
    ensures ledger { LedgersAreShared }
    ensures order { OthersAreInOrder }
    ensures turn { OthersAreInTurn }
{}

/// Calls and attempts are numbered by their places, configs and runs are there, and what buckets counted are ends of attempts: of a session in which nothing
/// happened, and after each action.
pub fn books_are_kept()
    ensures begun { BooksBegin }
    ensures after { BooksStay }
    ensures fair { LinesAreFair }
    ensures along { BooksAlong }
{}

/// What calls share is the tokens of their run of throttle settings (gRFC A6, "Throttling Retry Attempts and Hedged RPCs"): an end that counts changes one
/// bucket, which is that of all calls of its run, and no other.
pub fn calls_share_tokens_alone()
    ensures stay { TokensStay }
    ensures shared { TokensAreShared }
{}
