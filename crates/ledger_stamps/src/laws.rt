// What all writes of one entry do to a ledger.
ghost use Rattle.std.specs.Prelude.{◌≡◌, ℕ, List, ◌++◌, ◌∷◌, []};
ghost use Rattle.grpc_base.specs.declared.kind.Kind.{Kind};
ghost use Rattle.attempt_ledger.specs.declared.ledger.Ask.{Ask};
ghost use Rattle.attempt_ledger.specs.declared.ledger.CallEnd.{CallEnd};
ghost use Rattle.attempt_ledger.specs.declared.ledger.CallSeen.{CallSeen};
ghost use Rattle.attempt_ledger.specs.declared.ledger.Generation.{Generation};
ghost use Rattle.attempt_ledger.specs.declared.ledger.Ledger.{Ledger};
ghost use Rattle.attempt_ledger.specs.declared.ledger.LinkSeen.{LinkSeen};
ghost use Rattle.attempt_ledger.specs.declared.row.Placed.{Placed};
ghost use Rattle.attempt_ledger.specs.declared.row.Row.{Row};
ghost use Rattle.attempt_ledger.specs.declared.row.RowEnd.{RowEnd};
ghost use Rattle.ledger_stamps.specs.Later.{Later, LaterAsks, LaterCalls, LaterGenerations, LaterLinks, LaterRows, NewRow};
ghost use Rattle.ledger_stamps.specs.Steps.{activated_generation, begun_call, changed_at, committed_row, configured_call, ended_call, ended_row, gone_link, new_generation, new_link, noted_call, placed_row, read_link, retired_generation, streamed_row};

/// A law for proofs: writes of one entry, one after another, are writes of that entry. The call does nothing.
pub fn writes_of_an_entry_compose()
    ensures same { (n : ℕ) (l : Ledger) → Later n l l }
    ensures then { (n : ℕ) (a b c : Ledger) → Later n a b → Later n b c → Later n a c }
{}

/// A law for proofs: each write into the rows that names an entry is a write of that entry. The call does nothing.
pub fn rows_are_written_once()
    ensures added { (n : ℕ) (rows : List Row) (row : Row) → NewRow n row → LaterRows n rows (rows ++ row ∷ []) }
    ensures placed { (n : ℕ) (rows : List Row) (place : ℕ) (p : Placed) → p.entry ≡ n → LaterRows n rows (changed_at (placed_row p) rows place) }
    ensures streamed { (n : ℕ) (rows : List Row) (place stream : ℕ) → LaterRows n rows (changed_at (streamed_row stream) rows place) }
    ensures ended { (n : ℕ) (rows : List Row) (place : ℕ) (end : RowEnd) → end.entry ≡ n → LaterRows n rows (changed_at (ended_row end) rows place) }
    ensures committed { (n : ℕ) (rows : List Row) (place : ℕ) → LaterRows n rows (changed_at (committed_row n) rows place) }
{}

/// A law for proofs: each write into the calls that names an entry is a write of that entry. The call does nothing.
pub fn calls_are_written_once()
    ensures begun { (n : ℕ) (calls : List CallSeen) → LaterCalls n calls (calls ++ begun_call n ∷ []) }
    ensures configured { (n : ℕ) (calls : List CallSeen) (call : ℕ) → LaterCalls n calls (changed_at (configured_call n) calls call) }
    ensures noted { (n : ℕ) (calls : List CallSeen) (call : ℕ) → LaterCalls n calls (changed_at (noted_call n) calls call) }
    ensures ended { (n : ℕ) (calls : List CallSeen) (call : ℕ) (end : CallEnd) → end.entry ≡ n → LaterCalls n calls (changed_at (ended_call end) calls call) }
{}

/// A law for proofs: each write into pick requests, generations and links that names an entry is a write of that entry. The call
/// does nothing.
pub fn nets_are_written_once()
    ensures asked { (n : ℕ) (asks : List Ask) (ask : Ask) → ask.entry ≡ n → LaterAsks n asks (asks ++ ask ∷ []) }
    ensures added { (n : ℕ) (generations : List Generation) (kind : Kind) → LaterGenerations n generations (generations ++ new_generation kind ∷ []) }
    ensures activated { (n : ℕ) (generations : List Generation) (generation : ℕ) → LaterGenerations n generations (changed_at (activated_generation n) generations generation) }
    ensures retired { (n : ℕ) (generations : List Generation) (generation : ℕ) → LaterGenerations n generations (changed_at (retired_generation n) generations generation) }
    ensures up { (n : ℕ) (links : List LinkSeen) (sub : ℕ) → LaterLinks n links (links ++ new_link sub n ∷ []) }
    ensures gone { (n : ℕ) (links : List LinkSeen) (link : ℕ) → LaterLinks n links (changed_at (gone_link n) links link) }
    ensures read { (n : ℕ) (links : List LinkSeen) (link read : ℕ) → LaterLinks n links (changed_at (read_link read) links link) }
{}
