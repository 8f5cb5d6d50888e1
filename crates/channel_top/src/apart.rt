// What a mode writes shows its status, and what `replay` writes of one input is one text; nothing runs.
ghost use Rattle.std.specs.Prelude.{◌≡◌, ◌⊎◌, ℕ, List, Option, Some};
ghost use Rattle.lb_policy.specs.Table.{PolicySeen};
ghost use Rattle.channel_top.specs.Modes.{FillsIn, IsDoneIn, RefusesIn, ReportsFaultIn};
ghost use Rattle.channel_top.specs.Top.{EndsFull, IsDone, ReportsBadLine};
ghost use Rattle.channel_top.specs.declared.words.Mode.{Mode};

use crate::promise::sessions_keep_the_promise;

/// A law for proofs: no text is what a mode writes at two of the statuses 0, 2, 3 and 7, of whatever inputs and policies, and over whatever
/// worlds. The call does nothing.
pub fn statuses_end_apart()
    ensures done { (policies others : List PolicySeen) (held also : List (Option (List (List ℕ)))) (m : Mode) (left left' more more' : Option (List ℕ)) (text : List ℕ) → IsDoneIn policies held m left left' text → ReportsFaultIn others m more more' text ⊎ (RefusesIn others m more more' text ⊎ FillsIn others also m more more' text) → ⊥ }
    ensures full { (policies others : List PolicySeen) (held : List (Option (List (List ℕ)))) (m : Mode) (left left' more more' : Option (List ℕ)) (text : List ℕ) → FillsIn policies held m left left' text → ReportsFaultIn others m more more' text ⊎ RefusesIn others m more more' text → ⊥ }
    ensures reported { (policies others : List PolicySeen) (m : Mode) (left left' more more' : Option (List ℕ)) (text : List ℕ) → ReportsFaultIn policies m left left' text → RefusesIn others m more more' text → ⊥ }
{}

/// A law for proofs: of one input `replay` has one of the statuses 0, 3 and 7. The call does nothing.
pub fn replays_end_apart()
    ensures full { (policies : List PolicySeen) (input : List ℕ) (left left' : Option (List ℕ)) (text other : List ℕ) → IsDone policies (Some input) left text → EndsFull policies (Some input) left' other → ⊥ }
    ensures bad { (policies : List PolicySeen) (input : List ℕ) (left left' : Option (List ℕ)) (text other : List ℕ) → IsDone policies (Some input) left text ⊎ EndsFull policies (Some input) left text → ReportsBadLine (Some input) left' other → ⊥ }
{
    sessions_keep_the_promise();
}

/// A law for proofs: what `replay` writes at status 0 of an input is one text, and so is what it writes at status 7. The call does nothing.
pub fn replays_are_one()
    ensures done { (policies : List PolicySeen) (input : List ℕ) (left left' : Option (List ℕ)) (text other : List ℕ) → IsDone policies (Some input) left text → IsDone policies (Some input) left' other → text ≡ other }
    ensures full { (policies : List PolicySeen) (input : List ℕ) (left left' : Option (List ℕ)) (text other : List ℕ) → EndsFull policies (Some input) left text → EndsFull policies (Some input) left' other → text ≡ other }
{
    sessions_keep_the_promise();
}
