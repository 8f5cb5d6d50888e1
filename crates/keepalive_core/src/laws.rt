// What holds of every keepalive and of every table of them; nothing runs.
ghost use Rattle.std.specs.Prelude.{◌≡◌, ◌≢◌, ◌≤◌, ◌<◌, ◌==◌, ℕ, if◌then◌else◌, List, Some, None, max, option_map};
ghost use Rattle.keepalive_core.specs.Keepalive.{KeepSeen, keep_turn, next_due};
ghost use Rattle.keepalive_core.specs.Table.{changed_in, keep_of, opened_in, tend_by, tend_in};
ghost use Rattle.keepalive_core.specs.declared.rule.KeepTurn.TheVariants as turn;
ghost use Rattle.keepalive_core.specs.declared.table.KeptLink.{KeptLink};

/// A call for one link changes the keepalive of that link and no other, and is answered by it.
pub fn links_are_kept_apart()
    ensures changed { (link other : ℕ) (change : KeepSeen → KeepSeen) (links : List KeptLink) →
        keep_of other (changed_in link change links) ≡ (if link == other then option_map change (keep_of other links) else keep_of other links) }
    ensures opened { (link other : ℕ) (keep : KeepSeen) (links : List KeptLink) →
        keep_of other (opened_in link keep links) ≡ (if link == other then Some keep else keep_of other links) }
    ensures asked { (link moment : ℕ) (links : List KeptLink) → tend_in links link moment ≡ tend_by moment (keep_of link links) }
{}

/// What `next` gives is the first moment at which a turn of a link that is not lost answers other than Nothing.
pub fn next_is_the_first()
    ensures before { (k : KeepSeen) (moment : ℕ) → k.lost ≡ None → max k.moment moment < next_due k → keep_turn k moment ≡ turn.Nothing }
    ensures from { (k : KeepSeen) (moment : ℕ) → k.lost ≡ None → next_due k ≤ max k.moment moment → keep_turn k moment ≢ turn.Nothing }
{}
