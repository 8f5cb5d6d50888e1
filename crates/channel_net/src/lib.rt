// Subchannels, generations of policies and the links of subchannels, as one value.
#![tactic(auto)]

mod asker;
mod boards;
mod fault;
mod generations;
mod laws;
mod links;
mod net;
mod replies;
mod view;

pub use fault::LinkFault;
pub use laws::{
    laws_of_asks, laws_of_generations, laws_of_settling, laws_of_subchannels, laws_of_views,
};
pub use links::OwnLink;
pub use net::Net;
pub use replies::{Asked, Dialing};
