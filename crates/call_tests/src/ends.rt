// Ends of a call by its channel and its application, and what a call refuses or passes over.
use crate::tables::first_wrong;
use std::test::Fail;

const TIMEOUTS: &str = "# none the timeout of the application
1000 begin 100000000 = call 1 / - 10000
1000 tells 1 = deadline 100001000, has no config, path of 4, ended - / - 10000
1000 configure 1 = done / 1000 10000
1000 due 1 = done, queue 1 / - 10000 made
1000 place 1 = done / - 10000 open
100000999 deadline 1 = done / - 10000 open
100001000 deadline 1 = done, cut 1, end deadline / - 10000 cut
100001000 status 1 0 = done / - 10000 cut
100001000 take 1 = end 4 deadline / - 10000 cut
100001000 tells 1 = deadline 100001000, has config, path of 4, ended deadline / - 10000 cut
# none the timeout of the config, once the call has it
0 config timeout 7 = done / 10000
3 begin 100 = call 1 / - 10000
3 tells 1 = deadline 103, has no config, path of 4, ended - / - 10000
3 configure 1 = done / 3 10000
3 tells 1 = deadline 10, has config, path of 4, ended - / 3 10000
3 due 1 = done, queue 1 / - 10000 made
10 deadline 1 = done, drop 1, end deadline / - 10000 made
# none the shorter one
0 config timeout 500 = done / 10000
3 begin 100 = call 1 / - 10000
3 configure 1 = done / 3 10000
3 tells 1 = deadline 103, has config, path of 4, ended - / 3 10000
# none no timeout, and a call that waits for ready
0 config wait = done / 10000
0 begin = call 1 / - 10000
0 tells 1 = deadline -, has no config, path of 4, ended - / - 10000
0 configure 1 = done / 0 10000
0 tells 1 = deadline -, waits, has config, path of 4, ended - / 0 10000
4000000000000000000 deadline 1 = done / 0 10000
# none what came before the deadline is taken first
0 begin 9 = call 1 / - 10000
0 configure 1 = done / 0 10000
0 due 1 = done, queue 1 / - 10000 made
0 place 1 = done / - 10000 open
5 head 1 = done / - 10000 open*
6 message 1 3 = done / - 10000 open*
9 deadline 1 = done, cut 1, end deadline / - 10000 cut*
9 take 1 = head / - 10000 cut*
9 take 1 = message 3 / - 10000 cut*
9 take 1 = end 4 deadline / - 10000 cut*
9 take 1 = refused 2 / - 10000 cut*";

const CHANNEL: &str = "# none there is no config
0 begin = call 1 / - 10000
0 noconfig 1 = done, end noconfig / - 10000
0 noconfig 1 = done / - 10000
0 configure 1 = done / - 10000
0 take 1 = end 14 noconfig / - 10000
# hedge 3 0 the channel is shut down
0 begin = call 1 / - 10000
0 configure 1 = done / 0 10000
0 due 1 = done, queue 1 / - 10000 made
0 place 1 = done / 0 10000 open
0 due 1 = done, queue 2 / - 10000 open made
1 shut 1 = done, cut 1, drop 2, end shut / - 10000 cut made
1 place 2 = done / - 10000 cut made
1 take 1 = end 14 shut / - 10000 cut made
1 tells 1 = deadline -, has config, path of 4, ended shut / - 10000 cut made
# retry 3 a call is given up while it waits for its retry
0 begin = call 1 / - 10000
0 configure 1 = done / 0 10000
0 due 1 = done, queue 1 / - 10000 made
0 place 1 = done / - 10000 open
0 status 1 14 = done / 100000000 9000 14
1 cancel 1 = done, end cancelled / - 9000 14
100000000 due 1 = done / - 9000 14
100000000 take 1 = end 1 cancelled / - 9000 14
# none a message of the response is too long
0 begin = call 1 / - 10000
0 configure 1 = done / 0 10000
0 due 1 = done, queue 1 / - 10000 made
0 place 1 = done / - 10000 open
1 large 1 = done / - 10000 open
2 head 1 = done / - 10000 open*
2 message 1 2 = done / - 10000 open*
2 large 1 = done, cut 1, end response / - 10000 cut*
2 message 1 2 = done / - 10000 cut*
2 take 1 = head / - 10000 cut*
2 take 1 = message 2 / - 10000 cut*
2 take 1 = end 8 response / - 10000 cut*";

const REFUSALS: &str = "# none what a call refuses
0 begin = call 1 / - 10000
0 finish 1 = done / - 10000
0 finish 1 = refused 3 / - 10000
0 send 1 0 = refused 3 / - 10000
0 cancel 1 = done, end cancelled / - 10000
0 cancel 1 = refused 2 / - 10000
0 finish 1 = refused 2 / - 10000
0 send 1 0 = refused 2 / - 10000
0 take 1 = end 1 cancelled / - 10000
0 take 1 = refused 2 / - 10000
# none what it passes over: rows that it does not have, news of the link, a second placing
0 begin = call 1 / - 10000
0 configure 1 = done / 0 10000
0 due 1 = done, queue 1 / - 10000 made
0 place 9 = done / - 10000 made
0 fail 9 = done / - 10000 made
0 head 9 = done / - 10000 made
0 status 9 0 = done / - 10000 made
0 status 0 0 = done / - 10000 made
1 place 1 = done / - 10000 open
2 ready 1 = done / - 10000 open
3 place 1 = done / - 10000 open
4 status 1 0 = done, end row / - 10000 0*
4 status 1 14 = done / - 10000 0*
4 row 1 = call 1 first 1 due 0 placed 1 ended 4, tokens 10000, word - / - 10000 0*
# none a pick that fails
0 begin = call 1 / - 10000
0 configure 1 = done / 0 10000
0 due 1 = done, queue 1 / - 10000 made
0 fail 1 = done, end row / - 10000 14*
0 take 1 = end 14 row / - 10000 14*";

#[test]
fn deadlines_end_calls(rt: HostRuntime) -> Result<(), Fail> {
    assert_eq!(rt; first_wrong(rt.alloc(), TIMEOUTS)?.as_str(), "");
    Ok(())
}

#[test]
fn channels_end_calls(rt: HostRuntime) -> Result<(), Fail> {
    assert_eq!(rt; first_wrong(rt.alloc(), CHANNEL)?.as_str(), "");
    Ok(())
}

#[test]
fn calls_refuse(rt: HostRuntime) -> Result<(), Fail> {
    assert_eq!(rt; first_wrong(rt.alloc(), REFUSALS)?.as_str(), "");
    Ok(())
}
