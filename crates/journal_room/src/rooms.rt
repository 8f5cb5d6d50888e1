// Room in a journal, entry by entry; nothing runs.
ghost use Rattle.std.specs.Prelude.{◌≡◌, ◌↔◌, ℕ, List, [], ◌∷◌, ◌++◌, Result, Ok, Err, false};
ghost use Rattle.grpc_base.specs.declared.event.Entry.{Entry};
ghost use Rattle.grpc_base.specs.declared.event.Event.{Event};
ghost use Rattle.grpc_base.specs.declared.event.Reply.{Reply};
ghost use Rattle.grpc_base.specs.declared.event.Stamped.{Stamped};
ghost use Rattle.channel_core.specs.Core.{CoreSeen, IsFull, IsNew, Runs};
ghost use Rattle.channel_core.specs.declared.channel.CoreError.{CoreError};
ghost use Rattle.channel_core.specs.declared.channel.CoreError.TheVariants as failed;
ghost use Rattle.journal_room.specs.Rooms.{EntriesAreWithinRoom, HadRoom, HasRoom};

/// A law for proofs: a step that makes an entry had room for it, a journal whose entries had room keeps that with one more, and a drain gives no more
/// bytes than it has room. The call does nothing.
pub fn entries_find_room()
    ensures step { (core : CoreSeen) (e : Event) (result : Result Reply CoreError) (reply : Reply) → result ≡ Ok reply → core.spent ≡ false → ((entries bytes : ℕ) → (result ≡ Err (failed.SessionFull entries bytes)) ↔ IsFull core e entries bytes) → HasRoom core.journal.entries e }
    ensures more { (entries : List Entry) (e : Entry) → HadRoom entries → HasRoom entries e.event → HadRoom (entries ++ e ∷ []) }
    ensures drains { (authority : List ℕ) (new core : CoreSeen) (events : List Stamped) → IsNew authority new → Runs new events core → EntriesAreWithinRoom core.journal.entries }
{}
