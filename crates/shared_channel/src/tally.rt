// What a handle counts.
ghost use Rattle.std.specs.Prelude.{◌≡◌, Some, None};
ghost use Rattle.grpc_base.specs.Counts.{one_more};
ghost use Rattle.grpc_base.specs.Posts.{CountsErrors};

use grpc_base::{Look, PostError, Reply};

/// The errors and the looks of a handle. The counts stand still at their type's end.
#[derive(Clone, Copy, Debug)]
pub struct Tally {
    pub errors: u64,
    pub last_error: Option<PostError>,
    pub looks: u64,
    pub last_look: Option<Look>,
}

impl Tally {
    pub fn new() -> Tally
        ensures { result ≡ record { errors = 0; last_error = None; looks = 0; last_look = None } }
    {
        Tally {
            errors: 0,
            last_error: None,
            looks: 0,
            last_look: None,
        }
    }

    /// Counts what a post answered.
    pub fn posted(&mut self, answer: &Result<Reply, PostError>)
        ensures errors { CountsErrors self.old.errors self.new.errors self.old.last_error self.new.last_error answer.now }
        ensures looks { (self.new.looks ≡ self.old.looks) × (self.new.last_look ≡ self.old.last_look) }
    {
        if let Err(error) = answer {
            self.errors = self.errors.saturating_add(1);
            self.last_error = Some(*error);
        }
    }

    /// Counts a look.
    pub fn looked(&mut self, look: Look)
        ensures { self.new ≡ record self.old { looks = one_more self.old.looks; last_look = Some look } }
    {
        self.looks = self.looks.saturating_add(1);
        self.last_look = Some(look);
    }
}
