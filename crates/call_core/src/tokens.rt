// The tokens of a call's config, where it has throttling.
ghost use Rattle.std.specs.Prelude.{◌≡◌};
ghost use Rattle.call_core.specs.Parts.{count_of, is_above, is_ok, settled_tokens};
ghost use Rattle.attempt_ledger.specs.Ends.{is_stop};

use a6_numbers::Tokens;
use grpc_base::{Code, Pushback};

/// The tokens that are there, in thousandths.
pub fn count_of(tokens: &Option<Tokens>) -> Option<u32>
    ensures { result ≡ count_of tokens.now }
{
    tokens.as_ref().map(|tokens| tokens.count())
}

/// Whether more than half of the tokens are there; so it is where none are counted.
pub fn is_above(tokens: &Option<Tokens>) -> bool
    ensures { result ≡ is_above tokens.now }
{
    tokens.as_ref().is_none_or(|tokens| tokens.above())
}

/// An attempt ended, and its end counts: a success adds the ratio, another code of the call's set or a stop takes a whole token.
pub fn settle(tokens: &mut Option<Tokens>, code: Code, pushback: Pushback, in_set: bool)
    ensures { tokens.new ≡ settled_tokens code pushback in_set tokens.old }
{
    let Some(tokens) = tokens else {
        return;
    };
    if is_ok(code) {
        tokens.success();
    } else if in_set || is_stop(pushback) {
        tokens.failure();
    }
}

fn is_ok(code: Code) -> bool
    ensures { result ≡ is_ok code }
{
    matches!(code, Code::Ok)
}

fn is_stop(pushback: Pushback) -> bool
    ensures { result ≡ is_stop pushback }
{
    matches!(pushback, Pushback::Stop)
}
