// Laws of the plan, for proofs: the calls do nothing.
ghost use Rattle.std.specs.Prelude.{◌≡◌, ℕ, [], ◌∷◌, codes, flat_map};
ghost use Rattle.std.specs.List.Sorted.{IsNonDecreasingBy};
ghost use Rattle.std.specs.List.{range_with_len};
ghost use Rattle.grpc_base.specs.declared.script.AnswerPart.TheVariants as part;
ghost use Rattle.load_plan.specs.Answers.{answer, drawn_answer, good_parts};
ghost use Rattle.load_plan.specs.Batches.{batches_of, calls_in};
ghost use Rattle.load_plan.specs.Lines.{summary_line};
ghost use Rattle.load_plan.specs.Plan.{actions_of, moment_of};

/// The batches have the calls 1, 2, 3 .. up to the last one, each once and in this order.
#[tactic(auto, using(crate::proofs::BatchLaws::each_call_once))]
pub fn batches_have_each_call_once()
    ensures { (calls : ℕ) → flat_map (calls_in calls) (range_with_len 0 (batches_of calls)) ≡ range_with_len 1 calls }
{}

/// From one action of a load to the next the moment never falls.
#[tactic(auto, using(crate::proofs::MomentLaws::never_fall))]
pub fn moments_never_fall()
    ensures { (seed calls : ℕ) → IsNonDecreasingBy moment_of (actions_of seed calls) }
{}

/// Worked: to the first request of a load with seed 0 the server answers OK, and to the second UNAVAILABLE.
pub fn seed_0_answers()
    ensures first { drawn_answer 0 1 ≡ answer 1 good_parts }
    ensures second { drawn_answer 0 2 ≡ answer 2 (part.Status 14 ∷ []) }
{}

/// Worked: the line of a load with seed 0 and one call.
pub fn seed_0_line()
    ensures { summary_line (record { seed = 0; calls = 1; entries = 35; rows = 1; ok = 1; failed = 0; «open» = 0; retries = 0; transparent = 0 })
        ≡ codes "load 0 calls 1 entries 35 rows 1 ok 1 failed 0 open 0 retries 0 transparent 0" }
{}
