// What is written on a link stirs nothing else of a session; nothing runs.
ghost use Rattle.channel_actions.specs.StreamsOpened.Laws.{WritesStirNothing};

/// A frame that is written, also HEADERS that open a stream, stirs no line of the session's definition: nothing follows at once from it that did not before.
pub fn writes_stir_nothing()
    ensures { WritesStirNothing }
{}
