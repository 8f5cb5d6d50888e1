// What holds of every stream; nothing runs.
ghost use Rattle.std.specs.Prelude.{◌≡◌, ℕ, List, [], map, option_to_list, true, false};
ghost use Rattle.relay_asks.specs.Asking.{code_of, opened};
ghost use Rattle.relay_asks.specs.Laws.{Moment, asked_of, asks_from, before_answer, messages_in, statuses_from};

/// Whatever comes, and however it is cut: a stream whose request began a call asks a Send for each whole message of the
/// request, in order, each once. Then comes a Finish where the request ended without a fault. A Cancel is last, once, where it was given up
/// before its end was given: it broke off, or showed a message that is compressed or too long, whose status it gets. A stream whose
/// request began none asks nothing.
pub fn asks_are_the_request()
    ensures asks { (stream : ℕ) (moments : List Moment) → asks_from (opened stream true) moments ≡ asked_of stream moments }
    ensures status { (stream : ℕ) (moments : List Moment) → statuses_from (opened stream true) moments ≡ map code_of (option_to_list (messages_in (before_answer moments)).fault) }
    ensures refused { (stream : ℕ) (moments : List Moment) → asks_from (opened stream false) moments ≡ [] }
    ensures silent { (stream : ℕ) (moments : List Moment) → statuses_from (opened stream false) moments ≡ [] }
{}
