// The environment as the program sees it: clocks, random words, and where bytes come from and go to, with counts of their faults.
#![tactic(auto)]

mod clock;
mod copied;
mod draws;
mod first_answer;
mod given_up;
mod lacks;
mod lately;
mod link;
mod listen_set;
mod memory;
mod memory_dialer;
mod memory_link;
mod poll_delay;
mod setup;
mod sleepers;
mod standard;
mod std_clock;
mod steady;
mod tcp;
mod tcp_dialer;
mod tcp_listen;
mod waiting;
mod whole;
mod wire;
mod world;

pub use clock::{Clock, ListClock, Woken};
pub use draws::{Draws, PcgDraws};
pub use given_up::GivenUp;
pub use lacks::NotesLack;
pub use link::{Dialed, Dialer, Happened, LinkIn, LinkOut, LinkRead, Listener};
pub use memory::{MemSink, MemSource};
pub use memory_dialer::{MemDialer, MemLink, MemListener};
pub use memory_link::{MemLinkIn, MemLinkOut};
pub use poll_delay::{Pause, PollDelay};
pub use setup::{MemWorld, TcpWorld, World};
pub use standard::{StdSink, StdSource};
pub use std_clock::StdClock;
pub use steady::{SteadySink, SteadySource};
pub use tcp::{TcpIn, TcpOut};
pub use tcp_dialer::TcpDialer;
pub use tcp_listen::TcpListen;
pub use whole::write_whole;
pub use world::{ReadAnswer, Sink, Source, WriteAnswer};
