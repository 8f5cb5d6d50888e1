// How often calls are retried transparently; nothing runs.
ghost use Rattle.channel_actions.specs.TransparentRetries.Laws.{AttemptsAreBounded, RefusedOnce, StreamsAreBounded, UnsentOncePerLink};

/// Of a call one attempt at most is retried because the server did not process it, and of the attempts of one number of a call one at most never left the client on a link
/// (gRFC A6, "Transparent Retries").
pub fn retries_are_bounded()
    ensures refused { RefusedOnce }
    ensures unsent { UnsentOncePerLink }
{}

/// So a session within the limit of its journal has fewer than 7 * 2^40 attempts, and opens fewer than 2^30 streams on a link (RFC 9113, section 5.1.1).
pub fn attempts_are_bounded()
    ensures attempts { AttemptsAreBounded }
    ensures streams { StreamsAreBounded }
{}
