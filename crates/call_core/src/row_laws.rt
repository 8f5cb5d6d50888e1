// The rows of a call keep the laws of attempts among themselves, as `attempt_ledger::check_rows` decides them.
ghost use Rattle.std.specs.Prelude.{◌≡◌, ◌≤◌, ℕ, true, false, Option, Some, List};
ghost use Rattle.grpc_base.specs.Requests.{RequestSeen};
ghost use Rattle.grpc_base.specs.declared.event.EndCause.{EndCause};
ghost use Rattle.grpc_base.specs.declared.plan.Chosen.{Chosen};
ghost use Rattle.attempt_ledger.specs.declared.ledger.Ledger.{Ledger};
ghost use Rattle.attempt_ledger.specs.Ends.{is_cut, is_stop};
ghost use Rattle.attempt_ledger.specs.declared.news.EndNews.{EndNews};
ghost use Rattle.attempt_ledger.specs.declared.news.News.{News};
ghost use Rattle.attempt_ledger.specs.declared.news.News.TheVariants as news;
ghost use Rattle.attempt_ledger.specs.declared.row.Placed.{Placed};
ghost use Rattle.attempt_ledger.specs.declared.row.Row.{Row};
ghost use Rattle.a6_numbers.specs.Throttling.{Bucket};
ghost use Rattle.call_core.specs.declared.act.CallAct.{CallAct};
ghost use Rattle.call_core.specs.declared.live.LiveRow.{LiveRow};
ghost use Rattle.call_core.specs.Commitments.{IsCommittedOnce, IsRowOf};
ghost use Rattle.call_core.specs.Laws.{IsKept};
ghost use Rattle.call_core.specs.Numbering.{IsNumbered};
ghost use Rattle.call_core.specs.Orders.{RowsAreDue, RowsAreTimed};
ghost use Rattle.call_core.specs.Parts.{find_live, is_by_row, is_followed};
ghost use Rattle.call_core.specs.Reasons.{HasReasons};
ghost use Rattle.call_core.specs.RowChains.{RowsAreChained, KeepsChains};
ghost use Rattle.call_core.specs.RowFollowers.{AreFollowing, IsReported, KeepsFollowers};
ghost use Rattle.call_core.specs.RowLaws.{RowsAreHedged, TokensAreOwn, RowsAreThrottled, HasNoRows, IsFollowedAt, KeepsEnds, KeepsHedges, NeverBreaks};
ghost use Rattle.call_core.specs.RowLicenses.{RowsAreLicensed, IsSound};
ghost use Rattle.call_core.specs.Rows.{IsApart, row_in};
ghost use Rattle.call_core.specs.Steps.{Stepped, closed_by, configured, received_news, lent, made_due, new_call, pick_failed, placed_at, sent, timed_out};

/// A law for proofs: no row of a call breaks the law of numbering, where its attempts are numbered and its rows are in order. The
/// call does nothing.
pub fn rows_keep_numbering()
    ensures { (chosen : Chosen) (now : ℕ) (s : Stepped) → s.call.chosen ≡ Some chosen → IsNumbered s → RowsAreTimed now s → NeverBreaks 8 chosen s }
{}

/// A law for proofs: the count of tokens after each end of a call's rows is one that its bucket can have, so no row breaks the law of
/// throttling, if the call is lent the tokens of its configuration. The call does nothing.
pub fn rows_keep_throttling()
    ensures law { (chosen : Chosen) (s : Stepped) → s.call.chosen ≡ Some chosen → RowsAreThrottled s → NeverBreaks 12 chosen s }
    ensures begun { (number : ℕ) (request : RequestSeen) (begun : ℕ) (ledger : Ledger) (tokens : Option Bucket) (acts : List CallAct) → ((place : ℕ) (row : Row) → row_in ledger.rows place ≡ Some row → row.call ≡ number → ⊥) → RowsAreThrottled (lent (new_call number request begun) ledger tokens acts) }
    ensures elsewhere { (s : Stepped) (ledger : Ledger) → KeepsEnds s.call.number s.ledger.rows ledger.rows → RowsAreThrottled s → RowsAreThrottled (record s { ledger = ledger }) }
    ensures configured { (chosen : Chosen) (moment : ℕ) (s : Stepped) → IsKept s.call → IsApart s → TokensAreOwn s.tokens s.call.chosen → RowsAreThrottled s → RowsAreThrottled (configured chosen moment s) }
    ensures sent { (message : List ℕ) (moment : ℕ) (s : Stepped) → IsKept s.call → IsApart s → TokensAreOwn s.tokens s.call.chosen → RowsAreThrottled s → RowsAreThrottled (sent message moment s) }
    ensures closed { (why : EndCause) (moment : ℕ) (s : Stepped) → is_by_row why ≡ false → IsKept s.call → IsApart s → TokensAreOwn s.tokens s.call.chosen → RowsAreThrottled s → RowsAreThrottled (closed_by why moment s) }
    ensures timed_out { (moment : ℕ) (s : Stepped) → IsKept s.call → IsApart s → TokensAreOwn s.tokens s.call.chosen → RowsAreThrottled s → RowsAreThrottled (timed_out moment s) }
    ensures placed { (row : ℕ) (at : Placed) (s : Stepped) → at.entry ≡ s.ledger.entry → IsKept s.call → IsApart s → TokensAreOwn s.tokens s.call.chosen → RowsAreThrottled s → RowsAreThrottled (placed_at row at s) }
    ensures failed { (row moment word : ℕ) (s : Stepped) → IsKept s.call → IsApart s → TokensAreOwn s.tokens s.call.chosen → RowsAreThrottled s → RowsAreThrottled (pick_failed row moment word s) }
    ensures handled { (row : ℕ) (reported : News) (moment word : ℕ) (s : Stepped) → IsKept s.call → IsApart s → TokensAreOwn s.tokens s.call.chosen → RowsAreThrottled s → RowsAreThrottled (received_news row reported moment word s) }
    ensures made { (moment : ℕ) (s : Stepped) → IsKept s.call → IsApart s → TokensAreOwn s.tokens s.call.chosen → RowsAreThrottled s → RowsAreThrottled (made_due moment s) }
{}

/// A law for proofs: no hedge is due after an end that stops hedging, and each has what makes it due before it. So no row breaks the law of
/// hedging, if an end that a transparent retry follows forbids nothing. The call does nothing.
pub fn rows_keep_hedging()
    ensures law { (chosen : Chosen) (s : Stepped) → s.call.chosen ≡ Some chosen → HasReasons s → RowsAreHedged s → NeverBreaks 10 chosen s }
    ensures begun { (number : ℕ) (request : RequestSeen) (begun : ℕ) (ledger : Ledger) (tokens : Option Bucket) (acts : List CallAct) → RowsAreHedged (lent (new_call number request begun) ledger tokens acts) }
    ensures elsewhere { (s : Stepped) (ledger : Ledger) → KeepsHedges s.call.number s.ledger.rows ledger.rows → RowsAreHedged s → RowsAreHedged (record s { ledger = ledger }) }
    ensures configured { (chosen : Chosen) (moment : ℕ) (s : Stepped) → (now : ℕ) → now ≤ moment → IsKept s.call → IsApart s → RowsAreDue now s → HasNoRows s → RowsAreHedged s → RowsAreHedged (configured chosen moment s) }
    ensures sent { (message : List ℕ) (moment : ℕ) (s : Stepped) → (now : ℕ) → now ≤ moment → IsKept s.call → IsApart s → RowsAreDue now s → HasNoRows s → RowsAreHedged s → RowsAreHedged (sent message moment s) }
    ensures closed { (why : EndCause) (moment : ℕ) (s : Stepped) → is_by_row why ≡ false → (now : ℕ) → now ≤ moment → IsKept s.call → IsApart s → RowsAreDue now s → HasNoRows s → RowsAreHedged s → RowsAreHedged (closed_by why moment s) }
    ensures timed_out { (moment : ℕ) (s : Stepped) → (now : ℕ) → now ≤ moment → IsKept s.call → IsApart s → RowsAreDue now s → HasNoRows s → RowsAreHedged s → RowsAreHedged (timed_out moment s) }
    ensures placed { (row : ℕ) (at : Placed) (s : Stepped) → at.entry ≡ s.ledger.entry → (now : ℕ) → now ≤ at.moment → IsKept s.call → IsApart s → RowsAreDue now s → HasNoRows s → RowsAreHedged s → RowsAreHedged (placed_at row at s) }
    ensures failed { (row moment word : ℕ) (s : Stepped) → (now : ℕ) → now ≤ moment → IsKept s.call → IsApart s → RowsAreDue now s → HasNoRows s → RowsAreHedged s → RowsAreHedged (pick_failed row moment word s) }
    ensures handled { (row : ℕ) (reported : News) (moment word : ℕ) (s : Stepped) → ((tag : ℕ) (end : EndNews) → reported ≡ news.Ended tag end → is_followed s.call.attempts end.cause end.unseen ≡ true → is_stop end.pushback ≡ false) → (now : ℕ) → now ≤ moment → IsKept s.call → IsApart s → RowsAreDue now s → HasNoRows s → RowsAreHedged s → RowsAreHedged (received_news row reported moment word s) }
    ensures made { (moment : ℕ) (s : Stepped) → (now : ℕ) → now ≤ moment → IsKept s.call → IsApart s → RowsAreDue now s → HasNoRows s → RowsAreHedged s → RowsAreHedged (made_due moment s) }
{}

/// A law for proofs: of the rows of one number each later one is a transparent retry, so that one end of them counts at most, and a live
/// row is the last of its number. The call does nothing.
pub fn rows_are_chained()
    ensures counted { (s : Stepped) → RowsAreChained s → (place other : ℕ) (row next : Row) → IsRowOf s.call.number s.ledger.rows place row → IsRowOf s.call.number s.ledger.rows other next → next.number ≡ row.number → (IsFollowedAt s.call.number s.ledger.rows place row.number → ⊥) → (IsFollowedAt s.call.number s.ledger.rows other next.number → ⊥) → place ≡ other }
    ensures begun { (number : ℕ) (request : RequestSeen) (begun : ℕ) (ledger : Ledger) (tokens : Option Bucket) (acts : List CallAct) → ((place : ℕ) (row : Row) → row_in ledger.rows place ≡ Some row → row.call ≡ number → ⊥) → RowsAreChained (lent (new_call number request begun) ledger tokens acts) }
    ensures elsewhere { (s : Stepped) (ledger : Ledger) → KeepsChains s.call.number s.ledger.rows ledger.rows → RowsAreChained s → RowsAreChained (record s { ledger = ledger }) }
    ensures configured { (chosen : Chosen) (moment : ℕ) (s : Stepped) → IsNumbered s → IsApart s → RowsAreChained s → RowsAreChained (configured chosen moment s) }
    ensures sent { (message : List ℕ) (moment : ℕ) (s : Stepped) → IsNumbered s → IsApart s → RowsAreChained s → RowsAreChained (sent message moment s) }
    ensures closed { (why : EndCause) (moment : ℕ) (s : Stepped) → is_by_row why ≡ false → IsNumbered s → IsApart s → RowsAreChained s → RowsAreChained (closed_by why moment s) }
    ensures timed_out { (moment : ℕ) (s : Stepped) → IsNumbered s → IsApart s → RowsAreChained s → RowsAreChained (timed_out moment s) }
    ensures placed { (row : ℕ) (at : Placed) (s : Stepped) → at.entry ≡ s.ledger.entry → IsNumbered s → IsApart s → RowsAreChained s → RowsAreChained (placed_at row at s) }
    ensures failed { (row moment word : ℕ) (s : Stepped) → IsNumbered s → IsApart s → RowsAreChained s → RowsAreChained (pick_failed row moment word s) }
    ensures handled { (row : ℕ) (reported : News) (moment word : ℕ) (s : Stepped) → IsNumbered s → IsApart s → RowsAreChained s → RowsAreChained (received_news row reported moment word s) }
    ensures made { (moment : ℕ) (s : Stepped) → IsNumbered s → IsApart s → RowsAreChained s → RowsAreChained (made_due moment s) }
{}

/// A law for proofs: an end is followed by a transparent retry where the request never left the client, and once a call where the peer
/// refused it unseen before the commitment. The retry follows the nearest row of its number, is due at its end, and takes over its
/// commitment. So no row breaks the law of transparent retries, if entries don't fall and the news of one entry come in the order of
/// their bytes. The call does nothing.
pub fn rows_keep_transparent_retries()
    ensures law { (chosen : Chosen) (at : ℕ) (s : Stepped) → AreFollowing at s → NeverBreaks 11 chosen s }
    ensures begun { (number : ℕ) (request : RequestSeen) (begun : ℕ) (ledger : Ledger) (tokens : Option Bucket) (acts : List CallAct) → ((place : ℕ) (row : Row) → row_in ledger.rows place ≡ Some row → row.call ≡ number → ⊥) → AreFollowing ledger.entry (lent (new_call number request begun) ledger tokens acts) }
    ensures elsewhere { (at : ℕ) (s : Stepped) (ledger : Ledger) → KeepsFollowers s.call.number s.ledger.rows ledger.rows → AreFollowing at s → AreFollowing at (record s { ledger = ledger }) }
    ensures configured { (chosen : Chosen) (moment : ℕ) (s : Stepped) → (at : ℕ) → at ≤ s.ledger.entry → IsKept s.call → IsApart s → IsCommittedOnce s → RowsAreChained s → AreFollowing at s → AreFollowing s.ledger.entry (configured chosen moment s) }
    ensures sent { (message : List ℕ) (moment : ℕ) (s : Stepped) → (at : ℕ) → at ≤ s.ledger.entry → IsKept s.call → IsApart s → IsCommittedOnce s → RowsAreChained s → AreFollowing at s → AreFollowing s.ledger.entry (sent message moment s) }
    ensures closed { (why : EndCause) (moment : ℕ) (s : Stepped) → is_by_row why ≡ false → (at : ℕ) → at ≤ s.ledger.entry → IsKept s.call → IsApart s → IsCommittedOnce s → RowsAreChained s → AreFollowing at s → AreFollowing s.ledger.entry (closed_by why moment s) }
    ensures timed_out { (moment : ℕ) (s : Stepped) → (at : ℕ) → at ≤ s.ledger.entry → IsKept s.call → IsApart s → IsCommittedOnce s → RowsAreChained s → AreFollowing at s → AreFollowing s.ledger.entry (timed_out moment s) }
    ensures placed { (row : ℕ) (placed : Placed) (s : Stepped) → placed.entry ≡ s.ledger.entry → (at : ℕ) → at ≤ s.ledger.entry → IsKept s.call → IsApart s → IsCommittedOnce s → RowsAreChained s → AreFollowing at s → AreFollowing s.ledger.entry (placed_at row placed s) }
    ensures failed { (row moment word : ℕ) (s : Stepped) → (at : ℕ) → at ≤ s.ledger.entry → IsKept s.call → IsApart s → IsCommittedOnce s → RowsAreChained s → AreFollowing at s → AreFollowing s.ledger.entry (pick_failed row moment word s) }
    ensures handled { (row : ℕ) (reported : News) (moment word : ℕ) (s : Stepped) → ((tag : ℕ) (end : EndNews) (live : LiveRow) → reported ≡ news.Ended tag end → find_live row s.call.live ≡ Some live → IsReported s live end) → (at : ℕ) → at ≤ s.ledger.entry → IsKept s.call → IsApart s → IsCommittedOnce s → RowsAreChained s → AreFollowing at s → AreFollowing s.ledger.entry (received_news row reported moment word s) }
    ensures made { (moment : ℕ) (s : Stepped) → (at : ℕ) → at ≤ s.ledger.entry → IsKept s.call → IsApart s → IsCommittedOnce s → RowsAreChained s → AreFollowing at s → AreFollowing s.ledger.entry (made_due moment s) }
{}

/// A law for proofs: each retry follows an end that licenses it and is due at its moment, a random word is drawn just where there is a
/// wait, and an end that licenses nothing commits its row. So no row breaks the law of retries. The call does nothing.
pub fn rows_keep_retries()
    ensures law { (chosen : Chosen) (s : Stepped) → s.call.chosen ≡ Some chosen → HasReasons s → RowsAreChained s → RowsAreLicensed s → NeverBreaks 9 chosen s }
    ensures begun { (number : ℕ) (request : RequestSeen) (begun : ℕ) (ledger : Ledger) (tokens : Option Bucket) (acts : List CallAct) → RowsAreLicensed (lent (new_call number request begun) ledger tokens acts) }
    ensures elsewhere { (s : Stepped) (ledger : Ledger) → KeepsFollowers s.call.number s.ledger.rows ledger.rows → RowsAreChained s → RowsAreLicensed s → RowsAreLicensed (record s { ledger = ledger }) }
    ensures configured { (chosen : Chosen) (moment : ℕ) (s : Stepped) → IsSound s → RowsAreLicensed s → RowsAreLicensed (configured chosen moment s) }
    ensures sent { (message : List ℕ) (moment : ℕ) (s : Stepped) → IsSound s → RowsAreLicensed s → RowsAreLicensed (sent message moment s) }
    ensures closed { (why : EndCause) (moment : ℕ) (s : Stepped) → is_by_row why ≡ false → IsSound s → RowsAreLicensed s → RowsAreLicensed (closed_by why moment s) }
    ensures timed_out { (moment : ℕ) (s : Stepped) → IsSound s → RowsAreLicensed s → RowsAreLicensed (timed_out moment s) }
    ensures placed { (row : ℕ) (at : Placed) (s : Stepped) → at.entry ≡ s.ledger.entry → IsSound s → RowsAreLicensed s → RowsAreLicensed (placed_at row at s) }
    ensures failed { (row moment word : ℕ) (s : Stepped) → IsSound s → RowsAreLicensed s → RowsAreLicensed (pick_failed row moment word s) }
    ensures handled { (row : ℕ) (reported : News) (moment word : ℕ) (s : Stepped) → ((tag : ℕ) (end : EndNews) → reported ≡ news.Ended tag end → is_cut end.cause ≡ false) → IsSound s → RowsAreLicensed s → RowsAreLicensed (received_news row reported moment word s) }
    ensures made { (moment : ℕ) (s : Stepped) → IsSound s → RowsAreLicensed s → RowsAreLicensed (made_due moment s) }
{}
