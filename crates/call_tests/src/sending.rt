// What a call sends. Each message stands after a prefix of five bytes.
use crate::tables::first_wrong;
use std::test::Fail;

const OVERFLOW: &str = "# hedge 3 0 messages that overflow commit to the row that was sent furthest
0 config request 262144 = done / 10000
0 begin = call 1 / - 10000
0 send 1 262139 = done / - 10000
0 send 1 0 = full 262144 / - 10000
0 configure 1 = done / 0 10000
0 due 1 = done, queue 1 / - 10000 made
0 send 1 0 = full 262144 / - 10000 made
0 place 1 = done / 0 10000 open
0 due 1 = done, queue 2 / - 10000 open made
0 place 2 = done / 0 10000 open open
0 due 1 = done, queue 3 / - 10000 open open made
0 feed 1 100 = fed 100, 262044 left, more / - 10000 open open made
0 feed 2 101 = fed 101, 262043 left, more / - 10000 open open made
0 feed 2 262044 = fed 0, 262043 left, more / - 10000 open open made
0 feed 3 1 = fed 0, 0 left, more / - 10000 open open made
0 send 1 0 = done, cut 1, drop 3 / - 10000 cut open* made
0 send 1 0 = full 262048 / - 10000 cut open* made
0 feed 2 196513 = fed 196513, 65535 left, more / - 10000 cut open* made
0 send 1 0 = done / - 10000 cut open* made
0 send 1 0 = full 65540 / - 10000 cut open* made
0 finish 1 = done / - 10000 cut open* made
0 feed 2 65540 = fed 65540, 0 left / - 10000 cut open* made
# hedge 3 0 of equal rows to the first, and what follows an attempt that was never sent is committed
0 config request 262144 = done / 10000
0 begin = call 1 / - 10000
0 send 1 262139 = done / - 10000
0 configure 1 = done / 0 10000
0 due 1 = done, queue 1 / - 10000 made
0 place 1 = done / 0 10000 open
0 due 1 = done, queue 2 / - 10000 open made
0 place 2 = done / 0 10000 open open
0 send 1 0 = done, cut 2 / - 10000 open* cut
0 send 1 0 = full 262149 / - 10000 open* cut
1 unsent 1 = done, queue 3 / - 10000 14* cut made*
1 place 3 = done / - 10000 14* cut open*
1 feed 3 6 = fed 6, 262143 left, more / - 10000 14* cut open*
2 refused 3 = done, end row / - 9000 14* cut 14*
2 take 1 = end 14 row / - 9000 14* cut 14*";

const ROOM: &str = "# none a committed call takes messages until 65,536 bytes wait
0 config request 262144 = done / 10000
0 begin = call 1 / - 10000
0 configure 1 = done / 0 10000
0 due 1 = done, queue 1 / - 10000 made
0 place 1 = done / - 10000 open
0 head 1 = done / - 10000 open*
0 send 1 65530 = done / - 10000 open*
0 send 1 0 = done / - 10000 open*
0 send 1 0 = full 65540 / - 10000 open*
0 feed 1 4 = fed 4, 65536 left, more / - 10000 open*
0 send 1 0 = full 65536 / - 10000 open*
0 feed 1 1 = fed 1, 65535 left, more / - 10000 open*
0 send 1 0 = done / - 10000 open*
# none a byte more
0 config request 262144 = done / 10000
0 begin = call 1 / - 10000
0 configure 1 = done / 0 10000
0 due 1 = done, queue 1 / - 10000 made
0 place 1 = done / - 10000 open
0 head 1 = done / - 10000 open*
0 send 1 65531 = done / - 10000 open*
0 send 1 0 = full 65536 / - 10000 open*
# retry 3 a retry sends all anew
0 begin = call 1 / - 10000
0 send 1 3 = done / - 10000
0 configure 1 = done / 0 10000
0 due 1 = done, queue 1 / - 10000 made
0 place 1 = done / - 10000 open
0 feed 1 6 = fed 6, 2 left, more / - 10000 open
0 status 1 14 = done / 100000000 9000 14
0 finish 1 = done / 100000000 9000 14
100000000 due 1 = done, queue 2 / - 9000 14 made
100000000 place 2 = done / - 9000 14 open
100000000 feed 1 1 = fed 0, 0 left / - 9000 14 open
100000000 feed 2 8 = fed 8, 0 left / - 9000 14 open";

const LIMITS: &str = "# none a limit that comes late
0 begin = call 1 / - 10000
0 send 1 1001 = done / - 10000
0 configure 1 = done, end request / - 10000
0 configure 1 = done / - 10000
0 due 1 = done / - 10000
0 take 1 = end 8 request / - 10000
# none a message of the limit, and a byte more
0 begin = call 1 / - 10000
0 send 1 1000 = done / - 10000
0 configure 1 = done / 0 10000
0 due 1 = done, queue 1 / - 10000 made
0 place 1 = done / - 10000 open
0 send 1 1000 = done / - 10000 open
0 send 1 1001 = done, cut 1, end request / - 10000 cut
0 take 1 = end 8 request / - 10000 cut
# none a later config is none of a call that has its own
0 begin = call 1 / - 10000
0 configure 1 = done / 0 10000
0 config request 5 = done / 0 10000
1 configure 1 = done / 0 10000
1 send 1 6 = done / 0 10000";

#[test]
fn messages_overflow(rt: HostRuntime) -> Result<(), Fail> {
    assert_eq!(rt; first_wrong(rt.alloc(), OVERFLOW)?.as_str(), "");
    Ok(())
}

#[test]
fn messages_find_room(rt: HostRuntime) -> Result<(), Fail> {
    assert_eq!(rt; first_wrong(rt.alloc(), ROOM)?.as_str(), "");
    Ok(())
}

#[test]
fn messages_have_limits(rt: HostRuntime) -> Result<(), Fail> {
    assert_eq!(rt; first_wrong(rt.alloc(), LIMITS)?.as_str(), "");
    Ok(())
}
