// What calls hold of their messages beside a session; nothing runs.
ghost use Rattle.channel_actions.specs.HeldTexts.Laws.{AnswersKeepTexts, DeadlinesKeepTexts, NewTextsFit, SettlingsKeepTexts, UnwrittenTextsAreWhole};

/// An open call holds no more bytes of its messages than were accepted, and fewer once it gave some up (gRFC A6, "Memory Management (Buffering)"): it is so of a new
/// channel beside a new session, and each stage of an entry keeps it.
pub fn texts_fit()
    ensures begins { NewTextsFit }
    ensures deadlines { DeadlinesKeepTexts }
    ensures answers { AnswersKeepTexts }
    ensures settlings { SettlingsKeepTexts }
{}

/// So while nothing was written of them for the attempt to which the call is committed, they are held whole.
pub fn unwritten_texts_are_whole()
    ensures { UnwrittenTextsAreWhole }
{}
