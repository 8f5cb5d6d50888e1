// What an application is answered where its channel fails, and where a response has not one message.
use crate::{Channel, FULL, Plan};
use client_calls::{
    CallError, OpenCall, begin, cancel, exchange, finish, next, send, send_all, unary,
};
use grpc_base::{Metadata, Octets, PostError, Request, Text};
use std::alloc::Global;
use std::test::Fail;

/// The error of a channel that ran out of memory half way.
const SPENT: PostError = PostError::NoMemory { spent: true };

/// The request of a call.
fn request(alloc: Global) -> Result<Request, Fail> {
    let path = Text::of_slice(alloc, b"/a.B/C")?;
    let Ok(request) = Request::new(path, Metadata::new(alloc), None, None) else {
        return Err(Fail::new("the path is refused"));
    };
    Ok(request)
}

/// A message of a request.
fn word() -> Octets {
    Octets::of_static(b"hi")
}

/// Why the channel could not take a step.
fn failure<T>(came: &Result<T, CallError>) -> Option<PostError> {
    match came {
        Err(CallError::Failed(error)) => Some(*error),
        _ => None,
    }
}

/// How many messages came where one is wanted.
fn cardinality<T>(came: &Result<T, CallError>) -> Option<usize> {
    match came {
        Err(CallError::Cardinality { messages }) => Some(*messages),
        _ => None,
    }
}

#[test]
fn each_step_of_a_call_reports_the_error_of_its_channel(rt: HostRuntime) -> Result<(), Fail> {
    let alloc = rt.alloc();
    for error in [SPENT, FULL] {
        let mut plan = Plan::new();
        plan.fails = error == SPENT;
        plan.full = error == FULL;
        let mut channel = Channel::new(alloc, plan).expect(&rt, "0 is a moment");
        let post = &mut channel;
        let rows = [
            ("begin", failure(&begin(post, request(alloc)?))),
            ("send", failure(&send(post, 1, word()))),
            ("finish", failure(&finish(post, 1))),
            ("next", failure(&next(post, 1))),
            ("cancel", failure(&cancel(post, 1))),
            ("send_all", failure(&send_all(post, 1, &[word()]))),
            (
                "exchange",
                failure(&exchange(&rt, alloc, post, request(alloc)?, &[word()])),
            ),
            (
                "unary",
                failure(&unary(&rt, alloc, post, request(alloc)?, word())),
            ),
        ];
        for (row, came) in rows {
            assert_eq!(rt; (row, came), (row, Some(error)));
        }
        let mut call = OpenCall::new(post, 1);
        assert_eq!(rt; failure(&call.send(word())), Some(error));
        assert_eq!(rt; failure(&call.finish()), Some(error));
        assert_eq!(rt; failure(&call.next()), Some(error));
    }
    Ok(())
}

#[test]
fn a_unary_call_wants_one_message(rt: HostRuntime) -> Result<(), Fail> {
    let alloc = rt.alloc();
    for (messages, wanted) in [(0, Some(0)), (1, None), (2, Some(2))] {
        let mut plan = Plan::new();
        plan.messages = messages;
        let mut channel = Channel::new(alloc, plan).expect(&rt, "0 is a moment");
        let came = unary(&rt, alloc, &mut channel, request(alloc)?, word());
        assert_eq!(rt; (messages, cardinality(&came)), (messages, wanted));
        assert_eq!(rt; (messages, came.is_ok()), (messages, wanted.is_none()));
    }
    Ok(())
}
