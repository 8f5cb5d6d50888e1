// The links of a listener, served side by side.
ghost use Rattle.link_server.specs.Listening.{ServesSo};

use gate_io::Listener;
use link_server::{ScriptServer, Served, serve_links};
use std::alloc::Global;
use std::sync::Wait;

/// Where and how long a server serves.
#[derive(Clone, Copy, Debug, PartialEq, Eq)]
pub struct Place {
    /// The port of 127.0.0.1; at 0 the listener takes a free one.
    pub port: u16,
    /// How many links are accepted, at least one.
    pub links: u32,
}

/// Opens the listener and serves its links.
pub fn serve_at<R: Wait, L: Listener>(
    rt: &R,
    alloc: Global,
    core: &mut ScriptServer,
    place: Place,
    listener: &mut L,
) -> Served
    ensures { ServesSo (L.faults listener.old) (L.faults listener.new) result }
{
    if !listener.open_together(place.port) {
        return Served::NotListening;
    }
    serve_links(rt, alloc, core, listener, place.links)
}
