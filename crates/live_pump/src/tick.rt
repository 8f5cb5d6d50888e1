// Ticks, as often as something is due.
ghost use Rattle.std.specs.Prelude.{◌≡◌, ℕ, true, false, Some};
ghost use Rattle.grpc_base.specs.Counts.{one_more};
ghost use Rattle.grpc_base.specs.declared.post.Look.TheVariants as look;
ghost use Rattle.grpc_base.specs.declared.post.View.{View};
ghost use Rattle.live_pump.specs.Pumps.{HandleSeen};
ghost use Rattle.live_pump.specs.Ticks.{TicksIfDue, is_due};

use gate_io::Clock;
use grpc_base::{Event, Glance, Post, PostError};

/// Reads the clock once, posts one Tick exactly where something is due by then, and says whether it did.
pub fn tick_if_due<P: Post + Glance, C: Clock>(post: &mut P, clock: &C) -> Result<bool, PostError>
    ensures posted { let before : HandleSeen = record { made = P.made post.old; errors = P.errors post.old; last = P.last_error post.old } in let after : HandleSeen = record { made = P.made post.new; errors = P.errors post.new; last = P.last_error post.new } in (view : View) × (moment : ℕ) × (P.last_look post.new ≡ Some (look.Glance view)) × C.may_give clock.now moment × TicksIfDue view.next moment before after result }
    ensures looks { P.looks post.new ≡ one_more (P.looks post.old) }
    ensures share { P.share post.new ≡ P.share post.old }
{
    let moment = clock.now();
    let next = post.glance().next;
    if !is_due(next, moment) {
        return Ok(false);
    }
    match post.post(Event::Tick) {
        Ok(_) => Ok(true),
        Err(error) => Err(error),
    }
}

/// Whether something is due at a moment.
fn is_due(next: Option<u64>, moment: u64) -> bool
    ensures { result ≡ is_due next moment }
{
    match next {
        Some(due) => due <= moment,
        None => false,
    }
}
