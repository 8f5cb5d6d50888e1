// What holds of a call whatever was done to it.
ghost use Rattle.std.specs.Prelude.{◌≡◌, ◌≤◌, ◌<◌, ◌+◌, ◌-◌, ◌⊎◌, ℕ, Bool, true, false, if◌then◌else◌, Option, None, Some, List, [], ◌∷◌, ◌++◌, is_some};
ghost use Rattle.grpc_base.specs.Requests.{RequestSeen};
ghost use Rattle.grpc_base.specs.declared.event.EndCause.{EndCause};
ghost use Rattle.grpc_base.specs.declared.event.Reply.TheVariants as reply;
ghost use Rattle.grpc_base.specs.declared.fields.Field.{Field};
ghost use Rattle.grpc_base.specs.declared.plan.CallPlan.TheVariants as plans;
ghost use Rattle.grpc_base.specs.declared.plan.Chosen.{Chosen};
ghost use Rattle.grpc_base.specs.declared.plan.HedgePolicy.{HedgePolicy};
ghost use Rattle.grpc_base.specs.declared.plan.RetryPolicy.{RetryPolicy};
ghost use Rattle.attempt_ledger.specs.Numbering.{most_attempts};
ghost use Rattle.attempt_ledger.specs.Journals.{items_in};
ghost use Rattle.attempt_ledger.specs.declared.ledger.Ledger.{Ledger};
ghost use Rattle.attempt_ledger.specs.declared.news.EndNews.{EndNews};
ghost use Rattle.attempt_ledger.specs.declared.news.News.{News};
ghost use Rattle.attempt_ledger.specs.declared.row.Placed.{Placed};
ghost use Rattle.attempt_ledger.specs.declared.row.RowCause.{RowCause};
ghost use Rattle.attempt_ledger.specs.declared.row.RowEnd.{RowEnd};
ghost use Rattle.ledger_stamps.specs.Later.{Later};
ghost use Rattle.attempt_buffer.specs.Buffers.{held};
ghost use Rattle.a6_numbers.specs.Throttling.{Bucket};
ghost use Rattle.call_core.specs.declared.act.CallAct.{CallAct};
ghost use Rattle.call_core.specs.declared.attempts.Attempts.{Attempts};
ghost use Rattle.call_core.specs.declared.live.LiveRow.{LiveRow};
ghost use Rattle.call_core.specs.declared.state.CallState.{CallState};
ghost use Rattle.call_core.specs.Numbering.{IsNumbered, attempts_in};
ghost use Rattle.call_core.specs.Parts.{count_of, find_live, followed_attempts, furthest, is_followed, is_refusal, judged};
ghost use Rattle.call_core.specs.Laws.{IsForbidden, IsKept, IsMade, KeepsRefusal, NotDue, came, counts_end, full_of, hedged_end, licensed_retry, settled_by, waiting};
ghost use Rattle.call_core.specs.Rows.{RowsAreCut, HasReportedEnd, IsApart, IsTied, KeepsRows};
ghost use Rattle.call_core.specs.Steps.{Stepped, can_take, closed_by, committed, configured, ended_as, ended_at, full_with, received_head, received_message, received_too_large, is_committed_live, lent, made_due, new_call, pick_failed, placed_at, received_news, sent, take_reply, taken, timed_out};

/// A law for proofs: what a call does in an entry writes stamps of this entry alone, each once. The call does nothing.
pub fn calls_write_their_entry()
    ensures configured { (chosen : Chosen) (moment : ℕ) (s : Stepped) → Later s.ledger.entry s.ledger (configured chosen moment s).ledger }
    ensures sent { (message : List ℕ) (moment : ℕ) (s : Stepped) → Later s.ledger.entry s.ledger (sent message moment s).ledger }
    ensures closed { (why : EndCause) (moment : ℕ) (s : Stepped) → Later s.ledger.entry s.ledger (closed_by why moment s).ledger }
    ensures timed_out { (moment : ℕ) (s : Stepped) → Later s.ledger.entry s.ledger (timed_out moment s).ledger }
    ensures placed { (row : ℕ) (at : Placed) (s : Stepped) → at.entry ≡ s.ledger.entry → Later s.ledger.entry s.ledger (placed_at row at s).ledger }
    ensures failed { (row moment word : ℕ) (s : Stepped) → Later s.ledger.entry s.ledger (pick_failed row moment word s).ledger }
    ensures handled { (row : ℕ) (reported : News) (moment word : ℕ) (s : Stepped) → Later s.ledger.entry s.ledger (received_news row reported moment word s).ledger }
    ensures made { (moment : ℕ) (s : Stepped) → Later s.ledger.entry s.ledger (made_due moment s).ledger }
{}

/// A law for proofs: every call keeps `IsKept`, from its Begin on. The call does nothing.
pub fn calls_are_kept()
    ensures begun { (number : ℕ) (request : RequestSeen) (begun : ℕ) → IsKept (new_call number request begun) }
    ensures configured { (chosen : Chosen) (moment : ℕ) (s : Stepped) → IsKept s.call → IsKept (configured chosen moment s).call }
    ensures sent { (message : List ℕ) (moment : ℕ) (s : Stepped) → IsKept s.call → IsKept (sent message moment s).call }
    ensures closed { (why : EndCause) (moment : ℕ) (s : Stepped) → IsKept s.call → IsKept (closed_by why moment s).call }
    ensures timed_out { (moment : ℕ) (s : Stepped) → IsKept s.call → IsKept (timed_out moment s).call }
    ensures placed { (row : ℕ) (at : Placed) (s : Stepped) → IsKept s.call → IsKept (placed_at row at s).call }
    ensures failed { (row moment word : ℕ) (s : Stepped) → IsKept s.call → IsKept (pick_failed row moment word s).call }
    ensures handled { (row : ℕ) (reported : News) (moment word : ℕ) (s : Stepped) → IsKept s.call → IsKept (received_news row reported moment word s).call }
    ensures made { (moment : ℕ) (s : Stepped) → IsKept s.call → IsKept (made_due moment s).call }
{}

/// A law for proofs: nothing changes a call that ended, nor its ledger, and it asks nothing of the channel. The call does nothing.
pub fn ended_calls_stay()
    ensures configured { (chosen : Chosen) (moment : ℕ) (s : Stepped) → is_some s.call.ended ≡ true → configured chosen moment s ≡ s }
    ensures sent { (message : List ℕ) (moment : ℕ) (s : Stepped) → is_some s.call.ended ≡ true → sent message moment s ≡ s }
    ensures closed { (why : EndCause) (moment : ℕ) (s : Stepped) → is_some s.call.ended ≡ true → closed_by why moment s ≡ s }
    ensures timed_out { (moment : ℕ) (s : Stepped) → is_some s.call.ended ≡ true → timed_out moment s ≡ s }
    ensures placed { (row : ℕ) (at : Placed) (s : Stepped) → IsKept s.call → is_some s.call.ended ≡ true → placed_at row at s ≡ s }
    ensures failed { (row moment word : ℕ) (s : Stepped) → IsKept s.call → is_some s.call.ended ≡ true → pick_failed row moment word s ≡ s }
    ensures handled { (row : ℕ) (reported : News) (moment word : ℕ) (s : Stepped) → IsKept s.call → is_some s.call.ended ≡ true → received_news row reported moment word s ≡ s }
    ensures made { (moment : ℕ) (s : Stepped) → IsKept s.call → is_some s.call.ended ≡ true → made_due moment s ≡ s }
{}

/// A law for proofs: no further attempt is made of a call that is committed. The call does nothing.
pub fn committed_calls_make_no_attempt()
    ensures { (moment : ℕ) (s : Stepped) → IsKept s.call → is_some s.call.attempts.committed ≡ true → made_due moment s ≡ s }
{}

/// A law for proofs: what came for the application is taken in order, and the end after it; a take answers NotYet exactly where
/// nothing waits. The call does nothing.
pub fn items_are_taken_in_order()
    ensures taken { (ledger : Ledger) (call : CallState) → waiting ledger call ≡ items_in (take_reply ledger call) ++ waiting ledger (taken call) }
    ensures not_yet { (ledger : Ledger) (call : CallState) → can_take call ≡ false → take_reply ledger call ≡ reply.NotYet }
{}

/// A law for proofs: a message of the committed row comes after what came before, and but for heads nothing else changes what came.
/// The call does nothing.
pub fn messages_come_in_order()
    ensures message { (row : ℕ) (octets : List ℕ) (call : CallState) → came (received_message row octets call) ≡ came call ++ (if is_committed_live row call then reply.Message octets ∷ [] else []) }
    ensures configured { (chosen : Chosen) (moment : ℕ) (s : Stepped) → (configured chosen moment s).call.inbox ≡ s.call.inbox }
    ensures sent { (message : List ℕ) (moment : ℕ) (s : Stepped) → (sent message moment s).call.inbox ≡ s.call.inbox }
    ensures closed { (why : EndCause) (moment : ℕ) (s : Stepped) → (closed_by why moment s).call.inbox ≡ s.call.inbox }
    ensures timed_out { (moment : ℕ) (s : Stepped) → (timed_out moment s).call.inbox ≡ s.call.inbox }
    ensures placed { (row : ℕ) (at : Placed) (s : Stepped) → (placed_at row at s).call.inbox ≡ s.call.inbox }
    ensures ended { (row : ℕ) (reported : EndNews) (moment word : ℕ) (s : Stepped) → (ended_at row reported moment word s).call.inbox ≡ s.call.inbox }
    ensures too_large { (row moment : ℕ) (s : Stepped) → (received_too_large row moment s).call.inbox ≡ s.call.inbox }
    ensures made { (moment : ℕ) (s : Stepped) → (made_due moment s).call.inbox ≡ s.call.inbox }
{}

/// A law for proofs: the rows of a call that are no transparent retries are numbered from 1, are of the plan's kinds, and are at most
/// as many as the plan allows, whatever is done to the call. The call does nothing.
pub fn attempts_are_numbered()
    ensures begun { (number : ℕ) (request : RequestSeen) (begun : ℕ) (ledger : Ledger) (tokens : Option Bucket) (acts : List CallAct) → attempts_in number ledger.rows ≡ [] → IsNumbered (lent (new_call number request begun) ledger tokens acts) }
    ensures elsewhere { (s : Stepped) (ledger : Ledger) → attempts_in s.call.number ledger.rows ≡ attempts_in s.call.number s.ledger.rows → IsNumbered s → IsNumbered (record s { ledger = ledger }) }
    ensures configured { (chosen : Chosen) (moment : ℕ) (s : Stepped) → most_attempts chosen.plan ≤ 4294967295 → IsNumbered s → IsNumbered (configured chosen moment s) }
    ensures sent { (message : List ℕ) (moment : ℕ) (s : Stepped) → IsNumbered s → IsNumbered (sent message moment s) }
    ensures closed { (why : EndCause) (moment : ℕ) (s : Stepped) → IsNumbered s → IsNumbered (closed_by why moment s) }
    ensures timed_out { (moment : ℕ) (s : Stepped) → IsNumbered s → IsNumbered (timed_out moment s) }
    ensures placed { (row : ℕ) (at : Placed) (s : Stepped) → at.entry ≡ s.ledger.entry → IsNumbered s → IsNumbered (placed_at row at s) }
    ensures failed { (row moment word : ℕ) (s : Stepped) → IsNumbered s → IsNumbered (pick_failed row moment word s) }
    ensures handled { (row : ℕ) (reported : News) (moment word : ℕ) (s : Stepped) → IsNumbered s → IsNumbered (received_news row reported moment word s) }
    ensures made { (moment : ℕ) (s : Stepped) → IsNumbered s → IsNumbered (made_due moment s) }
{}

/// A law for proofs: an attempt is made exactly where one is due and the tokens don't forbid it. The call does nothing.
pub fn attempts_are_made_when_due()
    ensures { (moment : ℕ) (s : Stepped) → ((made_due moment s ≡ s) × NotDue moment s.call) ⊎ (IsForbidden moment s (made_due moment s) ⊎ IsMade moment s (made_due moment s)) }
{}

/// A law for proofs: of a call with retries, the next attempt follows an end exactly where the policy licenses it. The number of the
/// attempt is above that of the last attempt after which the server asked for a delay. The call does nothing.
pub fn retries_follow_their_license()
    ensures { (policy : RetryPolicy) (a : Attempts) (number : ℕ) (is_alone : Bool) (end : RowEnd) (above : Bool) (word : ℕ) → a.delayed < number → judged (plans.Retry policy) a number is_alone end above word ≡ licensed_retry policy a number (number - a.delayed) end above word }
{}

/// A law for proofs: what the end of an attempt of a hedged call means, once an attempt was made. The call does nothing.
pub fn hedges_follow_their_policy()
    ensures { (policy : HedgePolicy) (a : Attempts) (number : ℕ) (is_alone : Bool) (end : RowEnd) (above : Bool) (word : ℕ) → 1 ≤ a.sent → judged (plans.Hedge policy) a number is_alone end above word ≡ hedged_end policy a is_alone end above }
{}

/// A law for proofs: a message finds no room exactly where `full_of` says so. The call does nothing.
pub fn full_reports_what_is_held()
    ensures { (len : ℕ) (call : CallState) → full_with len call ≡ full_of (is_some call.attempts.committed) (is_some (furthest call.buffer call.live)) (held call.buffer) (5 + len) }
{}

/// A law for proofs: one refusal by the server is followed by a transparent retry in a call, and no further one. The call does
/// nothing.
pub fn refusals_are_followed_once()
    ensures spent { (a : Attempts) (row follower : ℕ) → (followed_attempts row follower true a).is_refusal_followed ≡ true }
    ensures never { (a : Attempts) (why : RowCause) (unseen : Bool) → a.is_refusal_followed ≡ true → is_refusal why ≡ true → is_followed a why unseen ≡ false }
    ensures configured { (chosen : Chosen) (moment : ℕ) (s : Stepped) → most_attempts chosen.plan ≤ 4294967295 → KeepsRefusal s (configured chosen moment s) }
    ensures sent { (message : List ℕ) (moment : ℕ) (s : Stepped) → KeepsRefusal s (sent message moment s) }
    ensures placed { (row : ℕ) (at : Placed) (s : Stepped) → at.entry ≡ s.ledger.entry → KeepsRefusal s (placed_at row at s) }
    ensures handled { (row : ℕ) (reported : News) (moment word : ℕ) (s : Stepped) → KeepsRefusal s (received_news row reported moment word s) }
    ensures failed { (row moment word : ℕ) (s : Stepped) → KeepsRefusal s (pick_failed row moment word s) }
    ensures made { (moment : ℕ) (s : Stepped) → KeepsRefusal s (made_due moment s) }
{}

/// A law for proofs: an end that counts settles the tokens, and no other news does. The call does nothing.
pub fn tokens_count_ends()
    ensures ended { (row : ℕ) (reported : EndNews) (moment word : ℕ) (s : Stepped) → (ended_at row reported moment word s).tokens ≡ (if counts_end row reported s.call then settled_by reported s.call s.tokens else s.tokens) }
    ensures head { (row : ℕ) (meta : List Field) (moment : ℕ) (s : Stepped) → (received_head row meta moment s).tokens ≡ s.tokens }
    ensures too_large { (row moment : ℕ) (s : Stepped) → (received_too_large row moment s).tokens ≡ s.tokens }
{}

/// A law for proofs: each live row of a call stands in the ledger at a place of its own, hasn't ended there, and was placed exactly
/// where it has a link, whatever is done to the call. The call does nothing.
pub fn live_rows_stand()
    ensures begun { (number : ℕ) (request : RequestSeen) (begun : ℕ) (ledger : Ledger) (tokens : Option Bucket) (acts : List CallAct) → IsApart (lent (new_call number request begun) ledger tokens acts) }
    ensures elsewhere { (s : Stepped) (ledger : Ledger) → KeepsRows s.call.number s.ledger.rows ledger.rows → IsApart s → IsApart (record s { ledger = ledger }) }
    ensures configured { (chosen : Chosen) (moment : ℕ) (s : Stepped) → most_attempts chosen.plan ≤ 4294967295 → IsApart s → IsApart (configured chosen moment s) }
    ensures sent { (message : List ℕ) (moment : ℕ) (s : Stepped) → IsApart s → IsApart (sent message moment s) }
    ensures closed { (why : EndCause) (moment : ℕ) (s : Stepped) → IsApart s → IsApart (closed_by why moment s) }
    ensures timed_out { (moment : ℕ) (s : Stepped) → IsApart s → IsApart (timed_out moment s) }
    ensures placed { (row : ℕ) (at : Placed) (s : Stepped) → at.entry ≡ s.ledger.entry → IsApart s → IsApart (placed_at row at s) }
    ensures failed { (row moment word : ℕ) (s : Stepped) → IsApart s → IsApart (pick_failed row moment word s) }
    ensures handled { (row : ℕ) (reported : News) (moment word : ℕ) (s : Stepped) → IsApart s → IsApart (received_news row reported moment word s) }
    ensures made { (moment : ℕ) (s : Stepped) → IsApart s → IsApart (made_due moment s) }
{}

/// A law for proofs: a live row whose end is reported has that end in the ledger, in the entry in which it was reported. The call does
/// nothing.
pub fn ended_rows_are_reported()
    ensures { (row : ℕ) (live : LiveRow) (reported : EndNews) (moment word : ℕ) (s : Stepped) → IsTied s → find_live row s.call.live ≡ Some live → HasReportedEnd reported s.ledger.entry moment (ended_at row reported moment word s).ledger.rows live.place }
{}

/// A law for proofs: a commitment and the end of a call cut every other outstanding row in their entry. The call does nothing.
pub fn other_rows_are_cut()
    ensures committed { (place moment : ℕ) (s : Stepped) → IsApart s → RowsAreCut (Some place) s.ledger.entry moment (count_of s.tokens) s.ledger.links (committed place moment s).ledger.rows s.call.live }
    ensures ended { (why : EndCause) (moment : ℕ) (s : Stepped) → IsApart s → RowsAreCut None s.ledger.entry moment (count_of s.tokens) s.ledger.links (ended_as why moment s).ledger.rows s.call.live }
{}
