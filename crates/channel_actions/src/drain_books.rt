// What a drain leaves of the books of a channel; nothing runs.
ghost use Rattle.channel_actions.specs.DrainBooks.Laws.{BucketsStay, CallColumnsStay, LinkColumnsStay, SetsStay};

/// Where attempts have streams, and something was written on a link, the sets of the channel, the tokens of its buckets, and the calls and links of its ledger are
/// as before.
pub fn drains_leave_books()
    ensures sets { SetsStay }
    ensures buckets { BucketsStay }
    ensures calls { CallColumnsStay }
    ensures links { LinkColumnsStay }
{}
