// What holds of every answer; nothing runs.
ghost use Rattle.std.specs.Prelude.{◌≡◌, ◌++◌, ℕ, List, false};
ghost use Rattle.relay_answer.specs.Answering.{fresh};
ghost use Rattle.relay_answer.specs.Laws.{Moment, after, down, given_in, left_of, sent_in};

/// Whatever is given, and whatever the windows allow: what was sent on a stream, and what it has left, is the head, the framed
/// messages and the end that were given, in their order. So nothing is lost, doubled or put in.
pub fn sends_what_was_given()
    ensures { (stream : ℕ) (moments : List Moment) → sent_in stream fresh moments ++ left_of (after stream fresh moments) ≡ down false (given_in moments) }
{}
