// What the pumps answer, and how one event is posted.
ghost use Rattle.std.specs.Prelude.{◌≡◌, true};
ghost use Rattle.live_pump.specs.Pumps.{HandleSeen, PostsTo, answer_of};
ghost use Rattle.live_pump.specs.Runs.{error_of, is_given_up};
ghost use Rattle.live_pump.specs.Workers.{ReportsThat, is_going, is_quiet};

use grpc_base::{Event, Post, PostError, Reply};

/// What a pump answers.
#[derive(Clone, Copy, Debug, PartialEq, Eq)]
pub enum Pumped {
    /// The link goes on.
    Going,
    /// This call posted LinkLost, and it was not refused.
    Lost,
    /// A post of this call was refused with this number.
    Gone { refusal: u8 },
    /// A post of this call failed, or the call found no memory itself.
    Failed(PostError),
    /// The channel is shut down; a worker alone answers so.
    Shut,
}

impl Pumped {
    /// Whether the link goes on.
    pub(crate) fn is_going(&self) -> bool
        ensures { result ≡ is_going self.now }
    {
        matches!(self, Pumped::Going)
    }

    /// Whether the link is lost or gone.
    pub(crate) fn is_given_up(&self) -> bool
        ensures { result ≡ is_given_up self.now }
    {
        !matches!(self, Pumped::Going | Pumped::Failed(_))
    }

    /// The error that is reported.
    pub(crate) fn error(&self) -> Option<PostError>
        ensures { result ≡ error_of self.now }
    {
        match self {
            Pumped::Failed(error) => Some(*error),
            _ => None,
        }
    }
}

/// The answer after a post: the refusal, the error, or `done` where it was not refused.
pub(crate) fn answer_of(done: Pumped, came: &Result<Reply, PostError>) -> Pumped
    ensures { result ≡ answer_of done came.now }
{
    match came {
        Ok(Reply::Refused { refusal }) => Pumped::Gone {
            refusal: refusal.number(),
        },
        Ok(_) => done,
        Err(error) => Pumped::Failed(*error),
    }
}

/// Posts an event, and answers by what came of it.
pub(crate) fn post_to<P: Post>(post: &mut P, event: Event, done: Pumped) -> Pumped
    ensures posted { let before : HandleSeen = record { made = P.made post.old; errors = P.errors post.old; last = P.last_error post.old } in let after : HandleSeen = record { made = P.made post.new; errors = P.errors post.new; last = P.last_error post.new } in PostsTo event done before after result }
    ensures looks { (P.looks post.new ≡ P.looks post.old) × (P.last_look post.new ≡ P.last_look post.old) }
    ensures reports_that { let before : HandleSeen = record { made = P.made post.old; errors = P.errors post.old; last = P.last_error post.old } in let after : HandleSeen = record { made = P.made post.new; errors = P.errors post.new; last = P.last_error post.new } in is_quiet done ≡ true → ReportsThat before after result }
    ensures share { P.share post.new ≡ P.share post.old }
{
    let came = post.post(event);
    answer_of(done, &came)
}
