// Retries of a call: 0.1 s after the first attempt, twice as long each time, at most 1 s. The random word is in the middle unless a
// line names one, so that a wait is what it is before it is spread.
use crate::tables::first_wrong;
use std::test::Fail;

const WAITS: &str = "# retry 4 the third attempt succeeds
0 begin = call 1 / - 10000
0 due 1 = done / - 10000
0 configure 1 = done / 0 10000
0 due 1 = done, queue 1 / - 10000 made
0 place 1 = done / - 10000 open
0 take 1 = notyet / - 10000 open
1000000 status 1 14 = done / 101000000 9000 14
100999999 due 1 = done / 101000000 9000 14
101000000 due 1 = done, queue 2 / - 9000 14 made
101000000 place 2 = done / - 9000 14 open
110000000 status 2 14 = done / 310000000 8000 14 14
310000000 due 1 = done, queue 3 / - 8000 14 14 made
310000000 place 3 = done / - 8000 14 14 open
320000000 head 3 = done / - 8000 14 14 open*
320000000 message 3 2 = done / - 8000 14 14 open*
330000000 status 3 0 = done, end row / - 8546 14 14 0*
330000000 take 1 = head / - 8546 14 14 0*
330000000 take 1 = message 2 / - 8546 14 14 0*
330000000 take 1 = end 0 row / - 8546 14 14 0*
330000000 take 1 = refused 2 / - 8546 14 14 0*
330000000 row 1 = call 1 first 1 due 0 placed 0 ended 1000000, tokens 9000, word 9223372036854775808 / - 8546 14 14 0*
330000000 row 2 = call 1 retry 2 due 101000000 placed 101000000 ended 110000000, tokens 8000, word 9223372036854775808 / - 8546 14 14 0*
330000000 row 3 = call 1 retry 3 due 310000000 placed 310000000 ended 330000000, tokens 8546, word - / - 8546 14 14 0*
# retry 6 the waits are spread, and grow to their limit
0 begin = call 1 / - 10000
0 configure 1 = done / 0 10000
0 due 1 = done, queue 1 / - 10000 made
0 place 1 = done / - 10000 open
0 word 0 = done / - 10000 open
0 status 1 14 = done / 80000000 9000 14
80000000 due 1 = done, queue 2 / - 9000 14 made
80000000 place 2 = done / - 9000 14 open
80000000 word 18446744073709551615 = done / - 9000 14 open
80000000 status 2 14 = done / 320000000 8000 14 14
320000000 gain = done / 320000000 8546 14 14
320000000 gain = done / 320000000 9092 14 14
320000000 due 1 = done, queue 3 / - 9092 14 14 made
320000000 place 3 = done / - 9092 14 14 open
320000000 status 3 14 = done / 800000000 8092 14 14 14
800000000 due 1 = done, queue 4 / - 8092 14 14 14 made
800000000 place 4 = done / - 8092 14 14 14 open
800000000 word 9223372036854775808 = done / - 8092 14 14 14 open
800000000 status 4 14 = done / 1600000000 7092 14 14 14 14
1600000000 due 1 = done, queue 5 / - 7092 14 14 14 14 made
1600000000 place 5 = done / - 7092 14 14 14 14 open
1600000000 status 5 14 = done / 2600000000 6092 14 14 14 14 14
2600000000 due 1 = done, queue 6 / - 6092 14 14 14 14 14 made
2600000000 place 6 = done / - 6092 14 14 14 14 14 open
2600000000 status 6 14 = done, end row / - 5092 14 14 14 14 14 14*
2600000000 take 1 = end 14 row / - 5092 14 14 14 14 14 14*";

const PUSHBACK: &str = "# retry 4 a delay that the server asks for starts the waits anew
0 begin = call 1 / - 10000
0 configure 1 = done / 0 10000
0 due 1 = done, queue 1 / - 10000 made
0 place 1 = done / - 10000 open
2000000 status 1 14 7 = done / 9000000 9000 14
9000000 due 1 = done, queue 2 / - 9000 14 made
9000000 place 2 = done / - 9000 14 open
10000000 status 2 14 = done / 110000000 8000 14 14
110000000 due 1 = done, queue 3 / - 8000 14 14 made
110000000 fail 3 = done / 310000000 7000 14 14 14
310000000 due 1 = done, queue 4 / - 7000 14 14 14 made
310000000 place 4 = done / - 7000 14 14 14 open
310000000 status 4 14 stop = done, end row / - 6000 14 14 14 14*
310000000 take 1 = end 14 row / - 6000 14 14 14 14*
310000000 row 1 = call 1 first 1 due 0 placed 0 ended 2000000, tokens 9000, word - / - 6000 14 14 14 14*
310000000 row 3 = call 1 retry 3 due 110000000 placed - ended 110000000, tokens 7000, word 9223372036854775808 / - 6000 14 14 14 14*
# retry 4 a stop takes a token whatever the code is
0 begin = call 1 / - 10000
0 configure 1 = done / 0 10000
0 due 1 = done, queue 1 / - 10000 made
0 place 1 = done / - 10000 open
0 status 1 3 stop = done, end row / - 9000 3*
0 take 1 = end 3 row / - 9000 3*
# retry 4 but a success adds the ratio
0 begin = call 1 / - 10000
0 lose = done / - 9000
0 lose = done / - 8000
0 configure 1 = done / 0 8000
0 due 1 = done, queue 1 / - 8000 made
0 place 1 = done / - 8000 open
0 status 1 0 stop = done, end row / - 8546 0*
# retry 4 a code outside the set
0 begin = call 1 / - 10000
0 configure 1 = done / 0 10000
0 due 1 = done, queue 1 / - 10000 made
0 place 1 = done / - 10000 open
0 status 1 3 = done, end row / - 10000 3*
# retry 4 no retry behind a head
0 begin = call 1 / - 10000
0 configure 1 = done / 0 10000
0 due 1 = done, queue 1 / - 10000 made
0 place 1 = done / - 10000 open
0 head 1 = done / - 10000 open*
1 status 1 14 = done, end row / - 9000 14*
1 take 1 = head / - 9000 14*
1 take 1 = end 14 row / - 9000 14*";

const TOKENS: &str = "# retry 3 two calls of one bucket
0 begin = call 1 / - 10000
0 begin = call 2 / - - 10000
0 configure 1 = done / 0 - 10000
0 configure 2 = done / 0 0 10000
0 due 1 = done, queue 1 / - 0 10000 made
0 place 1 = done / - 0 10000 open
0 status 1 14 = done / 100000000 0 9000 14
100000000 due 1 = done, queue 2 / - 0 9000 14 made
100000000 place 2 = done / - 0 9000 14 open
100000000 status 2 14 = done / 300000000 0 8000 14 14
300000000 due 1 = done, queue 3 / - 0 8000 14 14 made
300000000 place 3 = done / - 0 8000 14 14 open
300000000 status 3 14 = done, end row / - 0 7000 14 14 14*
300000000 due 2 = done, queue 4 / - - 7000 14 14 14* made
300000000 place 4 = done / - - 7000 14 14 14* open
300000000 status 4 14 = done / - 400000000 6000 14 14 14* 14
400000000 due 2 = done, queue 5 / - - 6000 14 14 14* 14 made
400000000 place 5 = done / - - 6000 14 14 14* 14 open
400000000 status 5 14 = done, end row / - - 5000 14 14 14* 14 14*
400000000 take 2 = end 14 row / - - 5000 14 14 14* 14 14*
400000000 row 4 = call 2 first 1 due 0 placed 300000000 ended 300000000, tokens 6000, word 9223372036854775808 / - - 5000 14 14 14* 14 14*
# retry 9 attempts of two calls in turn, and one that another call leaves no token
0 begin = call 1 / - 10000
0 configure 1 = done / 0 10000
0 due 1 = done, queue 1 / - 10000 made
0 begin = call 2 / - - 10000 made
0 configure 2 = done / - 0 10000 made
0 due 2 = done, queue 2 / - - 10000 made made
0 place 1 = done / - - 10000 open made
0 place 2 = done / - - 10000 open open
0 status 2 14 = done / - 100000000 9000 open 14
0 status 1 14 = done / 100000000 100000000 8000 14 14
0 lose = done / 100000000 100000000 7000 14 14
100000000 due 2 = done, queue 3 / 100000000 - 7000 14 14 made
100000000 due 1 = done, queue 4 / - - 7000 14 14 made made
100000000 place 3 = done / - - 7000 14 14 open made
100000000 place 4 = done / - - 7000 14 14 open open
100000000 status 4 14 = done / 300000000 - 6000 14 14 open 14
100000000 status 3 14 = done, end row / 300000000 - 5000 14 14 14* 14
300000000 due 1 = done, queue 5 / - - 5000 14 14 14* 14 made
300000000 place 5 = done / - - 5000 14 14 14* 14 open
300000000 status 5 0 = done, end row / - - 5546 14 14 14* 14 0*
# retry 9 5,100 thousandths before a failure
0 bucket 100 = done / 10000
0 lose = done / 9000
0 lose = done / 8000
0 lose = done / 7000
0 lose = done / 6000
0 lose = done / 5000
0 gain = done / 5100
0 begin = call 1 / - 5100
0 configure 1 = done / 0 5100
0 due 1 = done, queue 1 / - 5100 made
0 place 1 = done / - 5100 open
0 status 1 14 = done, end row / - 4100 14*
# retry 3 no tokens are counted
0 bucket = done / -
0 begin = call 1 / - -
0 configure 1 = done / 0 -
0 due 1 = done, queue 1 / - - made
0 place 1 = done / - - open
0 lost 1 = done / 100000000 - 14
100000000 due 1 = done, queue 2 / - - 14 made
100000000 place 2 = done / - - 14 open
100000000 status 2 14 = done / 300000000 - 14 14
300000000 row 2 = call 1 retry 2 due 100000000 placed 100000000 ended 100000000, tokens -, word 9223372036854775808 / 300000000 - 14 14";

const TRANSPARENT: &str = "# none one refused stream is followed
0 begin = call 1 / - 10000
0 configure 1 = done / 0 10000
0 due 1 = done, queue 1 / - 10000 made
0 place 1 = done / - 10000 open
1 refused 1 = done, queue 2 / - 10000 14 made
1 place 2 = done / - 10000 14 open
2 refused 2 = done, end row / - 10000 14 14*
2 take 1 = end 14 row / - 10000 14 14*
2 row 2 = call 1 transparent 1 due 1 placed 1 ended 2, tokens 10000, word - / - 10000 14 14*
# none each attempt that was never sent is followed
0 begin = call 1 / - 10000
0 configure 1 = done / 0 10000
0 due 1 = done, queue 1 / - 10000 made
0 place 1 = done / - 10000 open
5 unsent 1 = done, queue 2 / - 10000 14 made
5 place 2 = done / - 10000 14 open
6 refused 2 = done, queue 3 / - 10000 14 14 made
6 place 3 = done / - 10000 14 14 open
7 unsent 3 = done, queue 4 / - 10000 14 14 14 made
7 place 4 = done / - 10000 14 14 14 open
8 status 4 0 = done, end row / - 10000 14 14 14 0*
8 take 1 = end 0 row / - 10000 14 14 14 0*
# retry 3 the second refusal counts, and costs a token
0 begin = call 1 / - 10000
0 configure 1 = done / 0 10000
0 due 1 = done, queue 1 / - 10000 made
0 place 1 = done / - 10000 open
1 goaway 1 = done, queue 2 / - 10000 14 made
1 place 2 = done / - 10000 14 open
2 refused 2 = done / 100000002 9000 14 14
100000002 due 1 = done, queue 3 / - 9000 14 14 made
100000002 place 3 = done / - 9000 14 14 open
100000002 unsent 3 = done, queue 4 / - 9000 14 14 14 made
100000002 row 3 = call 1 retry 2 due 100000002 placed 100000002 ended 100000002, tokens 9000, word - / - 9000 14 14 14 made
100000002 row 4 = call 1 transparent 2 due 100000002 placed - not ended / - 9000 14 14 14 made
# none a stream that was seen
0 begin = call 1 / - 10000
0 configure 1 = done / 0 10000
0 due 1 = done, queue 1 / - 10000 made
0 place 1 = done / - 10000 open
1 reset 1 = done, end row / - 10000 13*
1 take 1 = end 13 row / - 10000 13*";

#[test]
fn waits_grow(rt: HostRuntime) -> Result<(), Fail> {
    assert_eq!(rt; first_wrong(rt.alloc(), WAITS)?.as_str(), "");
    Ok(())
}

#[test]
fn servers_push_back(rt: HostRuntime) -> Result<(), Fail> {
    assert_eq!(rt; first_wrong(rt.alloc(), PUSHBACK)?.as_str(), "");
    Ok(())
}

#[test]
fn tokens_are_shared(rt: HostRuntime) -> Result<(), Fail> {
    assert_eq!(rt; first_wrong(rt.alloc(), TOKENS)?.as_str(), "");
    Ok(())
}

#[test]
fn unseen_attempts_are_followed(rt: HostRuntime) -> Result<(), Fail> {
    assert_eq!(rt; first_wrong(rt.alloc(), TRANSPARENT)?.as_str(), "");
    Ok(())
}
