// How a call goes on, and how it comes out, whatever was done to it.
ghost use Rattle.std.specs.Prelude.{◌≡◌, ◌≤◌, ◌<◌, ◌⊎◌, ◌+◌, ◌==◌, ℕ, true, false, Option, None, Some, is_some, List, [], ◌∷◌, length};
ghost use Rattle.grpc_base.specs.Requests.{RequestSeen};
ghost use Rattle.grpc_base.specs.declared.event.EndCause.{EndCause};
ghost use Rattle.grpc_base.specs.declared.event.EndCause.TheVariants as ends;
ghost use Rattle.grpc_base.specs.declared.event.Reply.TheVariants as reply;
ghost use Rattle.grpc_base.specs.declared.fields.Field.{Field};
ghost use Rattle.grpc_base.specs.declared.plan.CallPlan.TheVariants as plans;
ghost use Rattle.grpc_base.specs.declared.plan.Chosen.{Chosen};
ghost use Rattle.grpc_base.specs.declared.plan.HedgePolicy.{HedgePolicy};
ghost use Rattle.attempt_ledger.specs.Ends.{is_cut};
ghost use Rattle.attempt_ledger.specs.Numbering.{most_attempts};
ghost use Rattle.attempt_ledger.specs.declared.ledger.Ledger.{Ledger};
ghost use Rattle.attempt_ledger.specs.declared.news.EndNews.{EndNews};
ghost use Rattle.attempt_ledger.specs.declared.news.News.{News};
ghost use Rattle.attempt_ledger.specs.declared.news.News.TheVariants as news;
ghost use Rattle.attempt_ledger.specs.declared.row.Placed.{Placed};
ghost use Rattle.attempt_ledger.specs.declared.row.Row.{Row};
ghost use Rattle.a6_numbers.specs.Throttling.{Bucket};
ghost use Rattle.call_core.specs.declared.act.CallAct.{CallAct};
ghost use Rattle.call_core.specs.declared.live.LiveRow.{LiveRow};
ghost use Rattle.call_core.specs.declared.state.CallState.{CallState};
ghost use Rattle.call_core.specs.Commitments.{IsCommittedOnce, KeepsCommitments};
ghost use Rattle.call_core.specs.Dues.{due_after_placing, is_forbidden};
ghost use Rattle.call_core.specs.Following.{IsRetried, is_retried};
ghost use Rattle.call_core.specs.Going.{IsGoing};
ghost use Rattle.call_core.specs.Holding.{HoldsTokens};
ghost use Rattle.call_core.specs.Leaving.{IsSameCall};
ghost use Rattle.call_core.specs.Laws.{IsForbidden, IsKept, IsMade, came, message_items, waiting};
ghost use Rattle.call_core.specs.Marks.{MarksAgree, IsOpen, Mark, due_in, marks_configured, marks_due, marks_ended, marks_received, marks_placed};
ghost use Rattle.call_core.specs.Numbering.{IsNumbered};
ghost use Rattle.call_core.specs.Orders.{RowsAreTimed, IsFair, KeepsTimes};
ghost use Rattle.call_core.specs.Outstanding.{RowsAreHeld, RowsAreOverBut};
ghost use Rattle.call_core.specs.Parts.{count_of, find_live, is_by_row, is_followed, is_too_long, names, pick_end};
ghost use Rattle.call_core.specs.Reasons.{HasReasons, KeepsReasons};
ghost use Rattle.call_core.specs.Rows.{IsApart, IsTied, KeepsRows, row_in};
ghost use Rattle.call_core.specs.Steps.{Stepped, call_plan, closed_by, committed, configured, deadline_at, ended_as, ended_at, fed_row, finished, received_head, received_news, lent, made_due, new_call, next_due, pick_failed, placed_at, send_refusal, sent, taken, timed_out};
ghost use Rattle.call_core.specs.Stopping.{IsStopped};

/// A law for proofs: no call that runs stands still. A row of it is queued or outstanding, or an attempt is due; and a call that
/// doesn't hedge makes one attempt at a time. The call does nothing.
pub fn calls_go_on()
    ensures begun { (number : ℕ) (request : RequestSeen) (begun : ℕ) → IsGoing (new_call number request begun) }
    ensures configured { (chosen : Chosen) (moment : ℕ) (s : Stepped) → 1 ≤ most_attempts chosen.plan → IsKept s.call → IsGoing s.call → IsGoing (configured chosen moment s).call }
    ensures sent { (message : List ℕ) (moment : ℕ) (s : Stepped) → IsKept s.call → IsGoing s.call → IsGoing (sent message moment s).call }
    ensures closed { (why : EndCause) (moment : ℕ) (s : Stepped) → is_by_row why ≡ false → IsKept s.call → IsGoing s.call → IsGoing (closed_by why moment s).call }
    ensures timed_out { (moment : ℕ) (s : Stepped) → IsKept s.call → IsGoing s.call → IsGoing (timed_out moment s).call }
    ensures placed { (row : ℕ) (at : Placed) (s : Stepped) → at.entry ≡ s.ledger.entry → IsKept s.call → IsGoing s.call → IsGoing (placed_at row at s).call }
    ensures failed { (row moment word : ℕ) (s : Stepped) → IsKept s.call → IsGoing s.call → IsGoing (pick_failed row moment word s).call }
    ensures handled { (row : ℕ) (reported : News) (moment word : ℕ) (s : Stepped) → IsKept s.call → IsGoing s.call → IsGoing (received_news row reported moment word s).call }
    ensures made { (moment : ℕ) (s : Stepped) → IsKept s.call → IsGoing s.call → IsGoing (made_due moment s).call }
{}

/// A law for proofs: each outstanding row of a call is one of its live rows. The call does nothing.
pub fn outstanding_rows_are_live()
    ensures begun { (number : ℕ) (request : RequestSeen) (begun : ℕ) (ledger : Ledger) (tokens : Option Bucket) (acts : List CallAct) → ((place : ℕ) (row : Row) → row_in ledger.rows place ≡ Some row → row.call ≡ number → ⊥) → RowsAreHeld (lent (new_call number request begun) ledger tokens acts) }
    ensures elsewhere { (s : Stepped) (ledger : Ledger) → KeepsRows s.call.number ledger.rows s.ledger.rows → RowsAreHeld s → RowsAreHeld (record s { ledger = ledger }) }
    ensures configured { (chosen : Chosen) (moment : ℕ) (s : Stepped) → IsApart s → RowsAreHeld s → RowsAreHeld (configured chosen moment s) }
    ensures sent { (message : List ℕ) (moment : ℕ) (s : Stepped) → IsApart s → RowsAreHeld s → RowsAreHeld (sent message moment s) }
    ensures closed { (why : EndCause) (moment : ℕ) (s : Stepped) → is_by_row why ≡ false → IsApart s → RowsAreHeld s → RowsAreHeld (closed_by why moment s) }
    ensures timed_out { (moment : ℕ) (s : Stepped) → IsApart s → RowsAreHeld s → RowsAreHeld (timed_out moment s) }
    ensures placed { (row : ℕ) (at : Placed) (s : Stepped) → at.entry ≡ s.ledger.entry → IsApart s → RowsAreHeld s → RowsAreHeld (placed_at row at s) }
    ensures failed { (row moment word : ℕ) (s : Stepped) → IsApart s → RowsAreHeld s → RowsAreHeld (pick_failed row moment word s) }
    ensures handled { (row : ℕ) (reported : News) (moment word : ℕ) (s : Stepped) → IsApart s → RowsAreHeld s → RowsAreHeld (received_news row reported moment word s) }
    ensures made { (moment : ℕ) (s : Stepped) → IsApart s → RowsAreHeld s → RowsAreHeld (made_due moment s) }
{}

/// A law for proofs: of a committed call every row that was placed has ended, but for the one to which it is committed; and of a
/// call that ended every one. The call does nothing.
pub fn other_rows_are_over()
    ensures committed { (place : ℕ) (s : Stepped) → IsKept s.call → RowsAreHeld s → s.call.attempts.committed ≡ Some place → RowsAreOverBut (Some place) s }
    ensures ended { (s : Stepped) → IsKept s.call → RowsAreHeld s → is_some s.call.ended ≡ true → RowsAreOverBut None s }
{}

/// A law for proofs: a call is committed to one row, or to a chain of transparent retries; and where it ended by its row, that row has
/// an end that isn't a cut. The call does nothing.
pub fn calls_are_committed_once()
    ensures begun { (number : ℕ) (request : RequestSeen) (begun : ℕ) (ledger : Ledger) (tokens : Option Bucket) (acts : List CallAct) → ((place : ℕ) (row : Row) → row_in ledger.rows place ≡ Some row → row.call ≡ number → ⊥) → IsCommittedOnce (lent (new_call number request begun) ledger tokens acts) }
    ensures elsewhere { (s : Stepped) (ledger : Ledger) → KeepsCommitments s.call.number s.ledger.rows ledger.rows → IsCommittedOnce s → IsCommittedOnce (record s { ledger = ledger }) }
    ensures configured { (chosen : Chosen) (moment : ℕ) (s : Stepped) → IsKept s.call → IsApart s → IsCommittedOnce s → IsCommittedOnce (configured chosen moment s) }
    ensures sent { (message : List ℕ) (moment : ℕ) (s : Stepped) → IsKept s.call → IsApart s → IsCommittedOnce s → IsCommittedOnce (sent message moment s) }
    ensures closed { (why : EndCause) (moment : ℕ) (s : Stepped) → is_by_row why ≡ false → IsKept s.call → IsApart s → IsCommittedOnce s → IsCommittedOnce (closed_by why moment s) }
    ensures timed_out { (moment : ℕ) (s : Stepped) → IsKept s.call → IsApart s → IsCommittedOnce s → IsCommittedOnce (timed_out moment s) }
    ensures placed { (row : ℕ) (at : Placed) (s : Stepped) → at.entry ≡ s.ledger.entry → IsKept s.call → IsApart s → IsCommittedOnce s → IsCommittedOnce (placed_at row at s) }
    ensures failed { (row moment word : ℕ) (s : Stepped) → IsKept s.call → IsApart s → IsCommittedOnce s → IsCommittedOnce (pick_failed row moment word s) }
    ensures handled { (row : ℕ) (reported : News) (moment word : ℕ) (s : Stepped) → ((tag : ℕ) (end : EndNews) → reported ≡ news.Ended tag end → is_cut end.cause ≡ false) → IsKept s.call → IsApart s → IsCommittedOnce s → IsCommittedOnce (received_news row reported moment word s) }
    ensures made { (moment : ℕ) (s : Stepped) → IsKept s.call → IsApart s → IsCommittedOnce s → IsCommittedOnce (made_due moment s) }
{}

/// A law for proofs: each row of a call was due, was placed and ended in this order, if moments don't fall. The call does nothing.
pub fn rows_are_in_order()
    ensures begun { (number : ℕ) (request : RequestSeen) (begun : ℕ) (ledger : Ledger) (tokens : Option Bucket) (acts : List CallAct) → ((place : ℕ) (row : Row) → row_in ledger.rows place ≡ Some row → row.call ≡ number → ⊥) → RowsAreTimed begun (lent (new_call number request begun) ledger tokens acts) }
    ensures elsewhere { (now : ℕ) (s : Stepped) (ledger : Ledger) → KeepsTimes s.call.number s.ledger.rows ledger.rows → RowsAreTimed now s → RowsAreTimed now (record s { ledger = ledger }) }
    ensures configured { (chosen : Chosen) (moment : ℕ) (s : Stepped) (now : ℕ) → now ≤ moment → IsApart s → RowsAreTimed now s → RowsAreTimed moment (configured chosen moment s) }
    ensures sent { (message : List ℕ) (moment : ℕ) (s : Stepped) (now : ℕ) → now ≤ moment → IsApart s → RowsAreTimed now s → RowsAreTimed moment (sent message moment s) }
    ensures closed { (why : EndCause) (moment : ℕ) (s : Stepped) → is_by_row why ≡ false → (now : ℕ) → now ≤ moment → IsApart s → RowsAreTimed now s → RowsAreTimed moment (closed_by why moment s) }
    ensures timed_out { (moment : ℕ) (s : Stepped) (now : ℕ) → now ≤ moment → IsApart s → RowsAreTimed now s → RowsAreTimed moment (timed_out moment s) }
    ensures placed { (row : ℕ) (at : Placed) (s : Stepped) → at.entry ≡ s.ledger.entry → (now : ℕ) → now ≤ at.moment → IsApart s → RowsAreTimed now s → RowsAreTimed at.moment (placed_at row at s) }
    ensures failed { (row moment word : ℕ) (s : Stepped) (now : ℕ) → now ≤ moment → IsApart s → RowsAreTimed now s → RowsAreTimed moment (pick_failed row moment word s) }
    ensures handled { (row : ℕ) (reported : News) (moment word : ℕ) (s : Stepped) → ((tag : ℕ) (end : EndNews) (live : LiveRow) → reported ≡ news.Ended tag end → find_live row s.call.live ≡ Some live → IsFair live end) → (now : ℕ) → now ≤ moment → IsApart s → RowsAreTimed now s → RowsAreTimed moment (received_news row reported moment word s) }
    ensures made { (moment : ℕ) (s : Stepped) (now : ℕ) → now ≤ moment → IsApart s → RowsAreTimed now s → RowsAreTimed moment (made_due moment s) }
{}

/// A law for proofs: a deadline ends a call at its moment and not before; and so does a message above the limit, when it is sent or
/// when the limit comes. The call does nothing.
pub fn limits_end_calls()
    ensures deadline { (deadline moment : ℕ) (s : Stepped) → s.call.ended ≡ None → deadline_at s.call ≡ Some deadline → deadline ≤ moment → (timed_out moment s).call.ended ≡ Some ends.Deadline }
    ensures before { (deadline moment : ℕ) (s : Stepped) → deadline_at s.call ≡ Some deadline → moment < deadline → timed_out moment s ≡ s }
    ensures never { (moment : ℕ) (s : Stepped) → deadline_at s.call ≡ None → timed_out moment s ≡ s }
    ensures sent { (chosen : Chosen) (message : List ℕ) (moment : ℕ) (s : Stepped) → send_refusal s.call ≡ None → s.call.chosen ≡ Some chosen → chosen.request < length message → (sent message moment s).call.ended ≡ Some ends.Request }
    ensures late { (chosen : Chosen) (moment : ℕ) (s : Stepped) → s.call.ended ≡ None → s.call.chosen ≡ None → chosen.request < s.call.longest → (configured chosen moment s).call.ended ≡ Some ends.Request }
{}

/// A law for proofs: the head of a live row commits the call to it and comes first; and of a committed call nothing that is reported of
/// another row changes anything. The call does nothing.
pub fn committed_calls_follow_one_row()
    ensures head { (row : ℕ) (live : LiveRow) (meta : List Field) (moment : ℕ) (s : Stepped) → find_live row s.call.live ≡ Some live → came (received_head row meta moment s).call ≡ reply.Head meta ∷ message_items s.call.inbox.messages }
    ensures commits { (row : ℕ) (live : LiveRow) (meta : List Field) (moment : ℕ) (s : Stepped) → IsKept s.call → find_live row s.call.live ≡ Some live → (received_head row meta moment s).call.attempts.committed ≡ Some row }
    ensures placed { (row place : ℕ) (at : Placed) (s : Stepped) → IsKept s.call → s.call.attempts.committed ≡ Some place → (row ≡ place → ⊥) → placed_at row at s ≡ s }
    ensures handled { (row place : ℕ) (reported : News) (moment word : ℕ) (s : Stepped) → IsKept s.call → s.call.attempts.committed ≡ Some place → (row ≡ place → ⊥) → received_news row reported moment word s ≡ s }
{}

/// A law for proofs: what waits for the application stays as it is whatever is done to other calls. The call does nothing.
pub fn waiting_items_stay()
    ensures { (s : Stepped) (ledger : Ledger) → KeepsCommitments s.call.number s.ledger.rows ledger.rows → IsCommittedOnce s → waiting ledger s.call ≡ waiting s.ledger s.call }
{}

/// A law for proofs: the end of a row holds the tokens as they are after it. The call does nothing.
pub fn ended_rows_hold_tokens()
    ensures { (row : ℕ) (live : LiveRow) (reported : EndNews) (moment word : ℕ) (s : Stepped) → IsTied s → find_live row s.call.live ≡ Some live → HoldsTokens (ended_at row reported moment word s).ledger.rows live.place (count_of (ended_at row reported moment word s).tokens) }
{}

/// A law for proofs: each row of a call has its reason among the rows before it. A retry follows an end that licenses it, a hedge the
/// delay since a placing or an end that forces it, and a transparent retry an attempt that the server can't have seen. Each is due at
/// the moment that follows from it. The call does nothing.
pub fn rows_have_reasons()
    ensures begun { (number : ℕ) (request : RequestSeen) (begun : ℕ) (ledger : Ledger) (tokens : Option Bucket) (acts : List CallAct) → ((place : ℕ) (row : Row) → row_in ledger.rows place ≡ Some row → row.call ≡ number → ⊥) → HasReasons (lent (new_call number request begun) ledger tokens acts) }
    ensures elsewhere { (s : Stepped) (ledger : Ledger) → KeepsReasons s.call.number s.ledger.rows ledger.rows → HasReasons s → HasReasons (record s { ledger = ledger }) }
    ensures configured { (chosen : Chosen) (moment : ℕ) (s : Stepped) → IsGoing s.call → IsNumbered s → IsApart s → HasReasons s → HasReasons (configured chosen moment s) }
    ensures sent { (message : List ℕ) (moment : ℕ) (s : Stepped) → IsGoing s.call → IsNumbered s → IsApart s → HasReasons s → HasReasons (sent message moment s) }
    ensures closed { (why : EndCause) (moment : ℕ) (s : Stepped) → is_by_row why ≡ false → IsGoing s.call → IsNumbered s → IsApart s → HasReasons s → HasReasons (closed_by why moment s) }
    ensures timed_out { (moment : ℕ) (s : Stepped) → IsGoing s.call → IsNumbered s → IsApart s → HasReasons s → HasReasons (timed_out moment s) }
    ensures placed { (row : ℕ) (at : Placed) (s : Stepped) → at.entry ≡ s.ledger.entry → IsGoing s.call → IsNumbered s → IsApart s → HasReasons s → HasReasons (placed_at row at s) }
    ensures failed { (row moment word : ℕ) (s : Stepped) → IsGoing s.call → IsNumbered s → IsApart s → HasReasons s → HasReasons (pick_failed row moment word s) }
    ensures handled { (row : ℕ) (reported : News) (moment word : ℕ) (s : Stepped) → IsGoing s.call → IsNumbered s → IsApart s → HasReasons s → HasReasons (received_news row reported moment word s) }
    ensures made { (moment : ℕ) (s : Stepped) → IsGoing s.call → IsNumbered s → IsApart s → HasReasons s → HasReasons (made_due moment s) }
{}

/// A law for proofs: a transparent retry follows the end of an attempt exactly where the request never left the client, or where the
/// server can't have seen it, once a call and before the commitment. The call does nothing.
pub fn unseen_attempts_are_retried()
    ensures retried { (row : ℕ) (live : LiveRow) (reported : EndNews) (moment word : ℕ) (s : Stepped) → find_live row s.call.live ≡ Some live → is_retried reported s.call.attempts ≡ true → IsRetried live moment s (ended_at row reported moment word s) }
    ensures counted { (row : ℕ) (live : LiveRow) (reported : EndNews) (moment word : ℕ) (s : Stepped) → find_live row s.call.live ≡ Some live → is_retried reported s.call.attempts ≡ false → length (ended_at row reported moment word s).ledger.rows ≡ length s.ledger.rows }
{}

/// A law for proofs: a call in which hedging stopped, or which is committed or over, makes no further attempt, whatever is done to it,
/// transparent retries aside. The call does nothing.
pub fn stopped_calls_make_no_attempt()
    ensures configured { (chosen : Chosen) (moment : ℕ) (s : Stepped) → most_attempts chosen.plan ≤ 4294967295 → IsStopped s → IsStopped (configured chosen moment s) }
    ensures sent { (message : List ℕ) (moment : ℕ) (s : Stepped) → IsStopped s → IsStopped (sent message moment s) }
    ensures closed { (why : EndCause) (moment : ℕ) (s : Stepped) → IsStopped s → IsStopped (closed_by why moment s) }
    ensures timed_out { (moment : ℕ) (s : Stepped) → IsStopped s → IsStopped (timed_out moment s) }
    ensures placed { (row : ℕ) (at : Placed) (s : Stepped) → at.entry ≡ s.ledger.entry → IsStopped s → IsStopped (placed_at row at s) }
    ensures failed { (row moment word : ℕ) (s : Stepped) → IsStopped s → IsStopped (pick_failed row moment word s) }
    ensures handled { (row : ℕ) (reported : News) (moment word : ℕ) (s : Stepped) → IsStopped s → IsStopped (received_news row reported moment word s) }
    ensures made { (moment : ℕ) (s : Stepped) → IsStopped s → made_due moment s ≡ s }
{}

/// A law for proofs: to feed a row, to finish and to take leave of a call all that the laws over its rows speak of. The call does
/// nothing.
pub fn takes_leave_rows()
    ensures fed { (row len : ℕ) (call : CallState) → IsSameCall call (fed_row row len call) }
    ensures finished { (call : CallState) → IsSameCall call (finished call) }
    ensures taken { (call : CallState) → IsSameCall call (taken call) }
    ensures going { (old new : CallState) → IsSameCall old new → IsGoing old → IsGoing new }
{}

/// A law for proofs: when the next attempt of a call is due, after each thing that decides it. The first one is due at the
/// configuration; after a making none is, nor after the tokens forbade one, a commitment and the end of the call. The hedging delay counts
/// from the placing of the newest attempt's own row; and an end that a transparent retry follows changes nothing. What the other ends
/// mean is said by `retries_follow_their_license` and `hedges_follow_their_policy`. The call does nothing.
pub fn due_moments_follow_each_step()
    ensures configured { (chosen : Chosen) (moment : ℕ) (s : Stepped) → IsNumbered s → 1 ≤ most_attempts chosen.plan → s.call.ended ≡ None → s.call.chosen ≡ None → is_too_long (Some chosen) s.call.longest ≡ false → next_due (configured chosen moment s).call ≡ Some moment }
    ensures made { (moment due : ℕ) (s : Stepped) → next_due s.call ≡ Some due → due ≤ moment → next_due (made_due moment s).call ≡ None }
    ensures newest { (moment due : ℕ) (s : Stepped) → next_due s.call ≡ Some due → due ≤ moment → is_forbidden s ≡ false → (made_due moment s).call.attempts.newest ≡ Some (length s.ledger.rows + 1) }
    ensures placed { (policy : HedgePolicy) (place : ℕ) (row : LiveRow) (at : Placed) (s : Stepped) → call_plan s.call ≡ plans.Hedge policy → find_live place s.call.live ≡ Some row → row.link ≡ None → names row.place s.call.attempts.newest ≡ true → (s.call.attempts.sent == 0) ≡ false → next_due (placed_at place at s).call ≡ due_after_placing policy at.moment s.call.attempts }
    ensures other { (place : ℕ) (row : LiveRow) (at : Placed) (s : Stepped) → find_live place s.call.live ≡ Some row → row.link ≡ None → names row.place s.call.attempts.newest ≡ false → next_due (placed_at place at s).call ≡ next_due s.call }
    ensures followed { (place : ℕ) (row : LiveRow) (reported : EndNews) (moment word : ℕ) (s : Stepped) → find_live place s.call.live ≡ Some row → is_followed s.call.attempts reported.cause reported.unseen ≡ true → next_due (ended_at place reported moment word s).call ≡ next_due s.call }
    ensures committed { (place moment : ℕ) (s : Stepped) → next_due (committed place moment s).call ≡ None }
    ensures ended { (why : EndCause) (moment : ℕ) (s : Stepped) → next_due (ended_as why moment s).call ≡ None }
{}

/// A law for proofs: over a whole run of a hedged call its next attempt is due as all that happened to it says. That is at the moment that the
/// last end since the newest making asked for, or else the delay after the newest attempt's own row was placed, unless hedging
/// stopped. One that is due is made, unless the tokens forbid it; and none is made that isn't due. The call does nothing.
pub fn hedges_follow_their_marks()
    ensures due { (policy : HedgePolicy) (marks : List Mark) (s : Stepped) → IsOpen s.call → call_plan s.call ≡ plans.Hedge policy → MarksAgree policy marks s → next_due s.call ≡ due_in policy marks }
    ensures missing { (policy : HedgePolicy) (marks : List Mark) (moment due : ℕ) (s : Stepped) → IsOpen s.call → call_plan s.call ≡ plans.Hedge policy → MarksAgree policy marks s → due_in policy marks ≡ Some due → due ≤ moment → IsForbidden moment s (made_due moment s) ⊎ IsMade moment s (made_due moment s) }
    ensures right { (policy : HedgePolicy) (marks : List Mark) (moment : ℕ) (s : Stepped) → IsOpen s.call → call_plan s.call ≡ plans.Hedge policy → MarksAgree policy marks s → (made : IsMade moment s (made_due moment s)) → due_in policy marks ≡ Some made.row.due }
    ensures begun { (policy : HedgePolicy) (number : ℕ) (request : RequestSeen) (begun : ℕ) (ledger : Ledger) (tokens : Option Bucket) (acts : List CallAct) → MarksAgree policy [] (lent (new_call number request begun) ledger tokens acts) }
    ensures elsewhere { (policy : HedgePolicy) (marks : List Mark) (s : Stepped) (ledger : Ledger) (tokens : Option Bucket) → MarksAgree policy marks s → MarksAgree policy marks (record s { ledger = ledger; tokens = tokens }) }
    ensures configured { (policy : HedgePolicy) (marks : List Mark) (chosen : Chosen) (moment : ℕ) (s : Stepped) → IsNumbered s → MarksAgree policy marks s → MarksAgree policy (marks_configured moment s.call marks) (configured chosen moment s) }
    ensures sent { (policy : HedgePolicy) (marks : List Mark) (message : List ℕ) (moment : ℕ) (s : Stepped) → MarksAgree policy marks s → MarksAgree policy marks (sent message moment s) }
    ensures closed { (policy : HedgePolicy) (marks : List Mark) (why : EndCause) (moment : ℕ) (s : Stepped) → MarksAgree policy marks s → MarksAgree policy marks (closed_by why moment s) }
    ensures timed_out { (policy : HedgePolicy) (marks : List Mark) (moment : ℕ) (s : Stepped) → MarksAgree policy marks s → MarksAgree policy marks (timed_out moment s) }
    ensures placed { (policy : HedgePolicy) (marks : List Mark) (row : ℕ) (at : Placed) (s : Stepped) → MarksAgree policy marks s → MarksAgree policy (marks_placed row at.moment s.call marks) (placed_at row at s) }
    ensures failed { (policy : HedgePolicy) (marks : List Mark) (row moment word : ℕ) (s : Stepped) → MarksAgree policy marks s → MarksAgree policy (marks_ended row pick_end moment s marks) (pick_failed row moment word s) }
    ensures handled { (policy : HedgePolicy) (marks : List Mark) (row : ℕ) (reported : News) (moment word : ℕ) (s : Stepped) → MarksAgree policy marks s → MarksAgree policy (marks_received row reported moment s marks) (received_news row reported moment word s) }
    ensures made { (policy : HedgePolicy) (marks : List Mark) (moment : ℕ) (s : Stepped) → policy.max ≤ 4294967295 → MarksAgree policy marks s → MarksAgree policy (marks_due policy moment s marks) (made_due moment s) }
{}
