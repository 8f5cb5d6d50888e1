// What holds of every server; nothing runs.
ghost use Rattle.std.specs.Prelude.{◌≡◌, ◌≢◌, ◌++◌, ℕ, List, []};
ghost use Rattle.grpc_base.specs.declared.script.ServerScript.{ServerScript};
ghost use Rattle.loop_server.specs.Laws.{book_after, count_of, new_book, next_parts};
ghost use Rattle.loop_server.specs.Script.{answer_of};
ghost use Rattle.loop_server.specs.Steps.{Arrives, Reading};

/// What a piece does on a link does not depend on how it is cut: two pieces do what they do as one.
pub fn pieces_join()
    ensures { (x y z : Reading) (prefix back : List ℕ) → Arrives x prefix y → Arrives y back z → Arrives x (prefix ++ back) z }
{}

/// The requests of a path, in the order in which they end, get its answers in the order of the script, each once, and the
/// last one again and again, whatever other requests come. They get UNIMPLEMENTED where the script has none.
pub fn requests_get_their_answers()
    ensures { (script : ServerScript) (before : List (List ℕ)) (path : List ℕ) → path ≢ [] →
        next_parts (book_after (new_book script) before) path ≡ answer_of script path (count_of path before) }
{}
