// Dialling what the channel wants dialled.
ghost use Rattle.std.specs.Prelude.{◌≡◌, ℕ, List, Bool, true, false, Option, Some, Result, option_map};
ghost use Rattle.grpc_base.specs.Counts.{one_more};
ghost use Rattle.grpc_base.specs.declared.event.Event.TheVariants as event;
ghost use Rattle.grpc_base.specs.declared.event.Reply.{Reply};
ghost use Rattle.grpc_base.specs.declared.post.Look.TheVariants as look;
ghost use Rattle.grpc_base.specs.declared.post.PostError.{PostError};
ghost use Rattle.grpc_base.specs.declared.post.View.{View};
ghost use Rattle.live_pump.specs.Dials.{DialerSeen, Dials, DialsIf, down_answer, given_dial, idle_answer, is_link, sub_of, turn_of, up_answer};
ghost use Rattle.live_pump.specs.Pumps.{HandleSeen, PostsOne};
ghost use Rattle.live_pump.specs.declared.dial.Dial.{Dial};

use gate_io::{Dialed, Dialer, LinkIn, LinkOut};
use grpc_base::{Address, Event, Glance, Post, PostError, Reply};

/// What one turn of dialling came to.
#[derive(Debug, Drop)]
pub enum DialTurn<I, O> {
    /// Nothing is to be dialled.
    Nothing,
    /// The dial is open, and the channel gave the link this number.
    Opened { link: u32, input: I, output: O },
    /// The dial of this subchannel failed.
    Refused { sub: u32 },
    /// A post of this call was refused with this number.
    Gone { refusal: u8 },
    /// A post of this call failed.
    Failed(PostError),
}

/// The turn where there is no link: nothing, a refusal or an error.
fn idle_turn<I, O>(came: &Result<Reply, PostError>) -> DialTurn<I, O>
    ensures { (left : I → Option (List ℕ)) → turn_of left result ≡ idle_answer came.now }
{
    match came {
        Ok(Reply::Refused { refusal }) => DialTurn::Gone {
            refusal: refusal.number(),
        },
        Ok(_) => DialTurn::Nothing,
        Err(error) => DialTurn::Failed(*error),
    }
}

/// The turn of a dial that failed, by what came of its DialFailed.
fn down_turn<I, O>(sub: u32, came: &Result<Reply, PostError>) -> DialTurn<I, O>
    ensures { (left : I → Option (List ℕ)) → turn_of left result ≡ down_answer sub came.now }
{
    match came {
        Ok(Reply::Refused { refusal }) => DialTurn::Gone {
            refusal: refusal.number(),
        },
        Ok(_) => DialTurn::Refused { sub },
        Err(error) => DialTurn::Failed(*error),
    }
}

/// The turn of a dial that opened, by what came of its LinkUp.
fn up_turn<I: LinkIn, O: LinkOut>(
    input: I,
    output: O,
    came: &Result<Reply, PostError>,
) -> DialTurn<I, O>
    ensures { turn_of I.left result ≡ up_answer (I.left input) came.now }
{
    match came {
        Ok(Reply::Link { link }) => DialTurn::Opened {
            link: *link,
            input,
            output,
        },
        other => idle_turn(other),
    }
}

/// Posts that a dial is a link. Unless the channel gives the link a number, the output is closed.
fn link_up<P: Post, O: LinkOut>(post: &mut P, output: &mut O, sub: u32) -> Result<Reply, PostError>
    ensures posted { let before : HandleSeen = record { made = P.made post.old; errors = P.errors post.old; last = P.last_error post.old } in let after : HandleSeen = record { made = P.made post.new; errors = P.errors post.new; last = P.last_error post.new } in PostsOne (event.LinkUp sub) before after result }
    ensures looks { (P.looks post.new ≡ P.looks post.old) × (P.last_look post.new ≡ P.last_look post.old) }
    ensures closed { is_link result ≡ false → O.closed output.new ≡ true }
    ensures share { P.share post.new ≡ P.share post.old }
{
    let came = post.post(Event::LinkUp { sub });
    if !matches!(&came, Ok(Reply::Link { .. })) {
        output.close();
    }
    came
}

/// A dial that the channel wants: for which subchannel, to which address, and when to give up.
#[derive(Clone, Copy, Debug)]
struct Dial {
    sub: u32,
    address: Address,
    until: u64,
}

/// The dial that a TakeDial gave.
fn dial_of(came: &Result<Reply, PostError>) -> Option<Dial>
    ensures sub { option_map (λ (d : Dial). d.sub) result ≡ sub_of came.now }
    ensures dial { result ≡ given_dial came.now }
{
    match came {
        Ok(
            Reply::Dial {
                sub,
                address,
                until,
            },
        ) => Some(Dial {
            sub: *sub,
            address: *address,
            until: *until,
        }),
        _ => None,
    }
}

/// Dials an address, and posts LinkUp where the dial opened and DialFailed where it failed.
fn dial_to<P: Post, N: Dialer>(post: &mut P, dialer: &mut N, dial: &Dial) -> DialTurn<N::In, N::Out>
    ensures posted { let before : HandleSeen = record { made = P.made post.old; errors = P.errors post.old; last = P.last_error post.old } in let after : HandleSeen = record { made = P.made post.new; errors = P.errors post.new; last = P.last_error post.new } in Dials dial.now.sub (record { coming = N.coming dialer.old; faults = N.faults dialer.old }) (record { coming = N.coming dialer.new; faults = N.faults dialer.new }) before after (turn_of N.In.LinkIn.left result) }
    ensures looks { (P.looks post.new ≡ P.looks post.old) × (P.last_look post.new ≡ P.last_look post.old) }
    ensures share { P.share post.new ≡ P.share post.old }
{
    let sub = dial.sub;
    match dialer.dial(dial.address, dial.until) {
        Dialed::Open(input, mut output) => {
            let came = link_up(post, &mut output, sub);
            up_turn(input, output, &came)
        }
        Dialed::Failed => {
            let came = post.post(Event::DialFailed { sub });
            down_turn(sub, &came)
        }
    }
}

/// Posts TakeDial, and makes the dial that it gave.
fn dial_wanted<P: Post, N: Dialer>(post: &mut P, dialer: &mut N) -> DialTurn<N::In, N::Out>
    ensures posted { let before : HandleSeen = record { made = P.made post.old; errors = P.errors post.old; last = P.last_error post.old } in let after : HandleSeen = record { made = P.made post.new; errors = P.errors post.new; last = P.last_error post.new } in DialsIf true (record { coming = N.coming dialer.old; faults = N.faults dialer.old }) (record { coming = N.coming dialer.new; faults = N.faults dialer.new }) before after (turn_of N.In.LinkIn.left result) }
    ensures looks { (P.looks post.new ≡ P.looks post.old) × (P.last_look post.new ≡ P.last_look post.old) }
    ensures share { P.share post.new ≡ P.share post.old }
{
    let came = post.post(Event::TakeDial);
    match dial_of(&came) {
        Some(dial) => dial_to(post, dialer, &dial),
        None => idle_turn(&came),
    }
}

/// Posts TakeDial exactly where an address waits to be dialled, dials it, and posts LinkUp where the dial opened
/// and DialFailed where it failed. An output that was opened is closed before Gone or Failed.
pub fn dial_once<P: Post + Glance, N: Dialer>(
    post: &mut P,
    dialer: &mut N,
) -> DialTurn<N::In, N::Out>
    ensures posted { let before : HandleSeen = record { made = P.made post.old; errors = P.errors post.old; last = P.last_error post.old } in let after : HandleSeen = record { made = P.made post.new; errors = P.errors post.new; last = P.last_error post.new } in (view : View) × (P.last_look post.new ≡ Some (look.Glance view)) × DialsIf view.dialable (record { coming = N.coming dialer.old; faults = N.faults dialer.old }) (record { coming = N.coming dialer.new; faults = N.faults dialer.new }) before after (turn_of N.In.LinkIn.left result) }
    ensures looks { P.looks post.new ≡ one_more (P.looks post.old) }
    ensures share { P.share post.new ≡ P.share post.old }
{
    if !post.glance().dialable {
        return DialTurn::Nothing;
    }
    dial_wanted(post, dialer)
}
