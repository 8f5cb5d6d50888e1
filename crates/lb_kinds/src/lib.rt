// The two kinds of policy that the channel comes with, `pick_first` and `round_robin`, and what a policy keeps.
#![tactic(auto)]

mod conn;
mod marked;
mod pick_first;
mod round_robin;
mod scan;
mod turn;
mod view;

pub use pick_first::PickFirst;
pub use round_robin::RoundRobin;
pub use turn::pick_in_turn;
pub use view::View;
