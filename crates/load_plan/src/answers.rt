// What the scripted server of a load answers.
ghost use Rattle.std.specs.Prelude.{◌≡◌, [], ◌∷◌, IfOk};
ghost use Rattle.grpc_base.specs.Scripts.{IsServerScript};
ghost use Rattle.load_plan.specs.Answers.{answer, drawn_parts, good_parts, load_path, server_script};

use crate::load::Load;
use crate::words::drawn;
use grpc_base::{AnswerLine, AnswerPart, Items, NoMemory, Octets, ServerScript, Text};
use std::alloc::Global;

/// The path of each call of a load.
const PATH: &[u8] = b"/load.S/M";

/// UNAVAILABLE.
const UNAVAILABLE: u32 = 14;

/// REFUSED_STREAM.
const REFUSED_STREAM: u32 = 7;

impl Load {
    /// What the server answers: to the n-th request of the load's path, for each n up to the calls, by the word of n, and
    /// one good answer after these.
    pub fn server(self, alloc: Global) -> Result<ServerScript, NoMemory>
        ensures script { IfOk result (λ s. s ≡ server_script self.seed self.calls) }
        ensures valid { IfOk result IsServerScript }
    {
        let answers = answers(alloc, self)?;
        Ok(ServerScript { answers })
    }
}

/// The answers in the order of their numbers.
fn answers(alloc: Global, load: Load) -> Result<Items<AnswerLine>, NoMemory>
    ensures { IfOk result (λ answers. answers ≡ (server_script load.seed load.calls).answers) }
{
    let mut answers = Items::new(alloc);
    for before in 0..load.calls {
        let parts = drawn_parts(alloc, drawn(load.seed, before + 1, 3))?;
        answers.push(answer(alloc, before + 1, parts)?)?;
    }
    let parts = good_parts(alloc)?;
    answers.push(answer(alloc, load.calls + 1, parts)?)?;
    Ok(answers)
}

/// The path of each call of a load.
pub fn load_path(alloc: Global) -> Result<Text, NoMemory>
    ensures { IfOk result (λ t. t ≡ load_path) }
{
    Text::of_slice(alloc, PATH)
}

/// The n-th answer.
fn answer(alloc: Global, n: u32, parts: Items<AnswerPart>) -> Result<AnswerLine, NoMemory>
    ensures { IfOk result (λ a. a ≡ answer n parts) }
{
    let path = load_path(alloc)?;
    Ok(AnswerLine { path, n, parts })
}

/// What a number from 0 to 3 answers.
fn drawn_parts(alloc: Global, number: u64) -> Result<Items<AnswerPart>, NoMemory>
    ensures { IfOk result (λ p. p ≡ drawn_parts number) }
{
    match number {
        0 => one_part(alloc, AnswerPart::Status(UNAVAILABLE)),
        1 => one_part(alloc, AnswerPart::Reset(REFUSED_STREAM)),
        _ => good_parts(alloc),
    }
}

/// An answer of one part.
fn one_part(alloc: Global, part: AnswerPart) -> Result<Items<AnswerPart>, NoMemory>
    ensures { IfOk result (λ p. p ≡ part ∷ []) }
{
    let mut parts = Items::new(alloc);
    parts.push(part)?;
    Ok(parts)
}

/// A response of one message, and OK.
fn good_parts(alloc: Global) -> Result<Items<AnswerPart>, NoMemory>
    ensures { IfOk result (λ p. p ≡ good_parts) }
{
    let mut parts = Items::new(alloc);
    parts.push(AnswerPart::Head)?;
    parts.push(AnswerPart::Message(Octets::of_static(b"ok")))?;
    parts.push(AnswerPart::Status(0))?;
    Ok(parts)
}
