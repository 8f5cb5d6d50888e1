// A call gets the config that is held, as an action of a session; nothing runs.
ghost use Rattle.call_cases.specs.ConfiguredCalls.Laws.{CallsGetConfigs};

use call_actions::calls_apart::{books_are_kept, calls_share_tokens_alone};
use call_actions::calls_go_on_alike;
use call_actions::calls_in_turn::calls_start_in_order;

/// A call that gets the config that is held has its plan, its deadline, its bucket and its first due moment in both (gRPC, "Service Config in gRPC").
pub fn calls_get_configs()
    ensures { CallsGetConfigs }
{
    books_are_kept();
    calls_go_on_alike();
    calls_share_tokens_alone();
    calls_start_in_order();
}
