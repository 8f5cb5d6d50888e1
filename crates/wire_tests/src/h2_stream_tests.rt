//! Worked values of RFC 9113.

use h2_stream::{Stream, StreamFault, StreamState};
use std::test::Fail;

#[test]
fn a_negative_window_is_made_up_before_more_is_sent(rt: HostRuntime) -> Result<(), Fail> {
    let mut stream = Stream::new(65535, 65535);
    stream.sent(65535, false);
    stream.shift(-65535)?;
    assert_eq!(rt; stream.may_send(), 0);
    stream.on_window(65535)?;
    assert_eq!(rt; stream.may_send(), 0);
    stream.on_window(1)?;
    assert_eq!(rt; stream.may_send(), 1);

    // The example of section 6.9.2: 60 KB sent, then an initial size of 16 KB, leave a window of -44 KB.
    let mut stream = Stream::new(65535, 65535);
    stream.sent(60 * 1024, false);
    stream.shift(16 * 1024 - 65535)?;
    stream.on_window(44 * 1024)?;
    assert_eq!(rt; stream.may_send(), 0);
    stream.on_window(7)?;
    assert_eq!(rt; stream.may_send(), 7);
    Ok(())
}

#[test]
fn windows_reach_their_bounds_and_not_further(rt: HostRuntime) -> Result<(), Fail> {
    const LARGEST: i64 = 2147483647;

    let mut full = Stream::new(LARGEST, LARGEST);
    assert_eq!(rt; full.may_send(), 2147483647);
    full.granted(0);
    assert_eq!(rt; full.on_window(1), Err(StreamFault::Stream(3)));
    assert_eq!(rt; full.shift(1), Err(StreamFault::Link(3)));
    assert_eq!(rt; full.may_send(), 2147483647);
    full.on_headers(false)?;
    assert_eq!(rt; full.has_head(), true);
    full.on_data(2147483647, false)?;
    assert_eq!(rt; full.on_data(1, false), Err(StreamFault::Stream(3)));

    let mut empty = Stream::new(0, 0);
    empty.granted(2147483647);
    assert_eq!(rt; empty.may_send(), 0);
    assert_eq!(rt; empty.on_window(4294967295), Err(StreamFault::Stream(3)));
    empty.on_window(2147483647)?;
    assert_eq!(rt; empty.may_send(), 2147483647);

    let mut emptied = Stream::new(LARGEST, 0);
    emptied.shift(-2 * LARGEST)?;
    emptied.on_window(2147483647)?;
    assert_eq!(rt; emptied.may_send(), 0);
    emptied.on_window(1)?;
    assert_eq!(rt; emptied.may_send(), 1);

    let mut raised = Stream::new(0, 0);
    raised.shift(LARGEST)?;
    raised.sent(raised.may_send(), false);
    assert_eq!(rt; raised.may_send(), 0);
    Ok(())
}

#[test]
fn each_window_is_of_its_side(rt: HostRuntime) -> Result<(), Fail> {
    let mut stream = Stream::new(3, 5);
    assert_eq!(rt; stream.may_send(), 3);
    stream.on_headers(false)?;
    assert_eq!(rt; stream.on_data(6, false), Err(StreamFault::Stream(3)));
    stream.on_data(5, false)?;
    assert_eq!(rt; stream.may_send(), 3);
    Ok(())
}

#[test]
fn a_side_that_has_ended_sends_and_takes_no_more(rt: HostRuntime) -> Result<(), Fail> {
    let mut stream = Stream::new(10, 10);
    assert_eq!(rt; stream.has_head(), false);
    stream.sent(4, true);
    assert_eq!(rt; stream.state(), StreamState::HalfClosedLocal);
    assert!(rt; stream.state().is_closed_locally());
    assert_eq!(rt; stream.may_send(), 0);
    assert_eq!(rt; stream.on_window(0), Err(StreamFault::Stream(1)));
    stream.on_headers(false)?;
    stream.on_data(10, true)?;
    stream.granted(10);
    assert_eq!(rt; stream.state(), StreamState::Closed);
    assert!(rt; stream.state().is_closed_remotely());
    // What comes late is passed over.
    assert_eq!(rt; stream.on_headers(false), Ok(()));
    assert_eq!(rt; stream.on_data(11, false), Ok(()));
    assert_eq!(rt; stream.on_window(0), Ok(()));
    assert_eq!(rt; stream.on_window(4294967295), Ok(()));
    assert_eq!(rt; stream.shift(2147483647), Ok(()));
    assert_eq!(rt; stream.state(), StreamState::Closed);
    Ok(())
}

#[test]
fn a_reset_closes_a_stream(rt: HostRuntime) -> Result<(), Fail> {
    let mut stream = Stream::new(10, 10);
    stream.on_headers(false)?;
    stream.reset();
    assert_eq!(rt; stream.state(), StreamState::Closed);
    assert_eq!(rt; stream.may_send(), 0);
    stream.on_data(11, true)?;
    stream.on_window(0)?;
    stream.on_headers(false)?;
    assert_eq!(rt; stream.state(), StreamState::Closed);
    Ok(())
}
