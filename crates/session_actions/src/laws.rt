// What holds of every list of actions; nothing runs.
ghost use Rattle.session_actions.specs.Laws.{PostsDecide, PostsDecideSession};

/// The moments, random words and events that come from outside decide all that happens: two lists of actions from one history that bring
/// the same, and end between two entries, are the same list and lead to the same history. So journal and ledger of a session are a
/// function of its setup and of what was posted.
pub fn posts_decide()
    ensures actions { PostsDecide }
    ensures session { PostsDecideSession }
{}
