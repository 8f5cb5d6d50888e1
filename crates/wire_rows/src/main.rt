//! Tries the public calls of the wire crates on the rows of a table.
#![tactic(auto)]

mod frames;
mod headers;
mod messages;
mod metadata;
mod statuses;
mod streams;
mod writing;

use h2_hpack::Decoder;
use std::alloc::Global;
use std::io;
use table_rows::{Answers, Said, Wrong, run};

/// What a row goes on from: the decoder of a connection, and the blocks that it has read.
#[derive(Drop)]
struct Wire {
    decoder: Decoder,
    sent: Vec<Vec<u8>>,
}

impl Answers for Wire {
    fn answer(
        &mut self,
        alloc: Global,
        kind: &str,
        input: &str,
        out: &mut Said,
    ) -> Result<(), Wrong> {
        match kind {
            "frame" => frames::frame(alloc, input, out),
            "payload" => frames::payload(alloc, input, out),
            "settings" => frames::settings(alloc, input, out),
            "write" => writing::write(alloc, input, out),
            "first" => {
                self.decoder = Decoder::new(alloc);
                self.sent = Vec::new(alloc);
                headers::block(alloc, self, input, out)
            }
            "next" => headers::block(alloc, self, input, out),
            "fields" => headers::fields(alloc, input, out),
            "hpack-fault" => headers::fault(alloc, input, out),
            "http" | "reset-code" | "status" => statuses::code(alloc, kind, input, out),
            "message" => statuses::message(alloc, input, out),
            "messages" => messages::messages(alloc, input, out),
            "framed" => messages::framed(alloc, input, out),
            "stream" => streams::stream(input, out),
            _ => metadata::answer(alloc, kind, input, out),
        }
    }
}

fn main(rt: HostRuntime) -> io::Result<()> {
    let alloc = rt.alloc();
    let mut wire = Wire {
        decoder: Decoder::new(alloc),
        sent: Vec::new(alloc),
    };
    run(&rt, &mut wire)
}
