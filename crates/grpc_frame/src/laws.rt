// What holds of every text of messages; nothing runs.
ghost use Rattle.std.specs.Prelude.{◌≡◌, ◌<◌, ◌++◌, ℕ, List};
ghost use Rattle.std.specs.List.{AllByRecursion};
ghost use Rattle.grpc_frame.specs.Messages.{AreMessages, Messages, messages_of};
ghost use Rattle.grpc_frame.specs.Reader.{given, reader_of};

/// Each text of bytes is messages in just one way, framed one after the other, with a rest that is less than a message or
/// at fault.
pub fn texts_are_messages()
    ensures exists { (limit : ℕ) (text : List ℕ) → AllByRecursion (λ b. b < 256) text → AreMessages limit text (messages_of limit text) }
    ensures one { (limit : ℕ) (text : List ℕ) (m n : Messages) → AreMessages limit text m → AreMessages limit text n → m ≡ n }
{}

/// The messages of a text do not depend on how it is cut. A reader that was fed a text, in whatever pieces, gives for one
/// piece more just the messages that the longer text has more, and is then a reader that was fed the longer text.
pub fn pieces_join()
    ensures messages { (limit : ℕ) (text piece : List ℕ) →
        (messages_of limit (text ++ piece)).whole ≡ (messages_of limit text).whole ++ (given (reader_of limit text) piece).messages }
    ensures fault { (limit : ℕ) (text piece : List ℕ) →
        (messages_of limit (text ++ piece)).fault ≡ (given (reader_of limit text) piece).fault }
    ensures reader { (limit : ℕ) (text piece : List ℕ) →
        reader_of limit (text ++ piece) ≡ (given (reader_of limit text) piece).reader }
{}
