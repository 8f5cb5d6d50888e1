// The links of a server: what comes on each goes to the server, and what the server has to send goes out.
#![tactic(auto)]

mod done;
mod links;
mod open_links;
mod script_server;
mod serve;
mod serving;

pub use done::{LinkDone, Turned};
pub use links::{Noted, Served, serve_links};
pub use open_links::OpenLinks;
pub use script_server::ScriptServer;
pub use serve::{serve_link, serve_turn};
pub use serving::Serving;
