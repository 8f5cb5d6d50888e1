// Hedged attempts of a call: a plan names how many there are at most and the delay between them, in nanoseconds.
use crate::tables::first_wrong;
use std::test::Fail;

const HEADS: &str = "# hedge 3 0 a head commits at once
0 begin = call 1 / - 10000
0 configure 1 = done / 0 10000
0 due 1 = done, queue 1 / - 10000 made
0 place 1 = done / 0 10000 open
0 due 1 = done, queue 2 / - 10000 open made
0 place 2 = done / 0 10000 open open
0 due 1 = done, queue 3 / - 10000 open open made
0 place 3 = done / - 10000 open open open
1 head 2 = done, cut 1, cut 3 / - 10000 cut open* cut
1 status 1 3 = done / - 10000 cut open* cut
1 head 3 = done / - 10000 cut open* cut
1 message 1 5 = done / - 10000 cut open* cut
1 message 3 6 = done / - 10000 cut open* cut
1 message 2 4 = done / - 10000 cut open* cut
1 take 1 = head / - 10000 cut open* cut
1 take 1 = message 4 / - 10000 cut open* cut
1 take 1 = notyet / - 10000 cut open* cut
2 status 2 0 = done, end row / - 10000 cut 0* cut
2 take 1 = end 0 row / - 10000 cut 0* cut
2 row 3 = call 1 hedge 3 due 0 placed 0 ended 1, tokens 10000, word - / - 10000 cut 0* cut
# hedge 3 0 what is queued is dropped
0 begin = call 1 / - 10000
0 configure 1 = done / 0 10000
0 due 1 = done, queue 1 / - 10000 made
0 place 1 = done / 0 10000 open
0 due 1 = done, queue 2 / - 10000 open made
0 head 1 = done, drop 2 / - 10000 open* made
0 place 2 = done / - 10000 open* made
1 large 2 = done / - 10000 open* made
1 large 1 = done, cut 1, end response / - 10000 cut* made
1 take 1 = head / - 10000 cut* made
1 take 1 = end 8 response / - 10000 cut* made
# hedge 3 5 a code outside the set commits
0 begin = call 1 / - 10000
0 configure 1 = done / 0 10000
0 due 1 = done, queue 1 / - 10000 made
0 place 1 = done / 5 10000 open
5 due 1 = done, queue 2 / - 10000 open made
5 place 2 = done / 10 10000 open open
10 due 1 = done, queue 3 / - 10000 open open made
11 status 2 5 9 = done, cut 1, drop 3, end row / - 10000 cut 5* made
11 take 1 = end 5 row / - 10000 cut 5* made";

const FORCED: &str = "# hedge 3 50000000 an end forces the next attempt
0 begin = call 1 / - 10000
0 configure 1 = done / 0 10000
0 due 1 = done, queue 1 / - 10000 made
0 place 1 = done / 50000000 10000 open
5000000 status 1 14 = done / 5000000 9000 14
5000000 due 1 = done, queue 2 / - 9000 14 made
5000000 place 2 = done / 55000000 9000 14 open
54999999 due 1 = done / 55000000 9000 14 open
55000000 due 1 = done, queue 3 / - 9000 14 open made
55000000 place 3 = done / - 9000 14 open open
56000000 status 2 14 = done / - 8000 14 14 open
57000000 status 3 14 = done, end row / - 7000 14 14 14*
57000000 take 1 = end 14 row / - 7000 14 14 14*
57000000 row 2 = call 1 hedge 2 due 5000000 placed 5000000 ended 56000000, tokens 8000, word - / - 7000 14 14 14*
57000000 row 3 = call 1 hedge 3 due 55000000 placed 55000000 ended 57000000, tokens 7000, word - / - 7000 14 14 14*
# hedge 4 1000000000 two ends force one attempt
0 begin = call 1 / - 10000
0 configure 1 = done / 0 10000
0 due 1 = done, queue 1 / - 10000 made
0 place 1 = done / 1000000000 10000 open
1000000000 due 1 = done, queue 2 / - 10000 open made
1000000000 place 2 = done / 2000000000 10000 open open
1500000000 status 1 14 = done / 1500000000 9000 14 open
1500000000 status 2 14 = done / 1500000000 8000 14 14
1500000000 due 1 = done, queue 3 / - 8000 14 14 made
1500000000 due 1 = done / - 8000 14 14 made
1500000000 place 3 = done / 2500000000 8000 14 14 open
1500000000 due 1 = done / 2500000000 8000 14 14 open
1600000000 head 3 = done / - 8000 14 14 open*
1600000000 status 3 0 = done, end row / - 8546 14 14 0*
# hedge 2 0 the last end decides
0 begin = call 1 / - 10000
0 configure 1 = done / 0 10000
0 due 1 = done, queue 1 / - 10000 made
0 place 1 = done / 0 10000 open
0 due 1 = done, queue 2 / - 10000 open made
0 place 2 = done / - 10000 open open
1 status 2 14 = done / - 9000 open 14
2 status 1 14 = done, end row / - 8000 14* 14
2 take 1 = end 14 row / - 8000 14* 14
# hedge 3 10 the delay is that of the attempt's own row
0 begin = call 1 / - 10000
0 configure 1 = done / 0 10000
0 due 1 = done, queue 1 / - 10000 made
0 place 1 = done / 10 10000 open
5 unsent 1 = done, queue 2 / 10 10000 14 made
7 place 2 = done / 10 10000 14 open
10 due 1 = done, queue 3 / - 10000 14 open made
10 place 3 = done / 20 10000 14 open open
11 goaway 2 = done, queue 4 / 20 10000 14 14 open made
12 goaway 3 = done / 12 9000 14 14 14 made
12 row 3 = call 1 hedge 2 due 10 placed 10 ended 12, tokens 9000, word - / 12 9000 14 14 14 made
12 row 4 = call 1 transparent 1 due 11 placed - not ended / 12 9000 14 14 14 made
13 fail 4 = done / 13 8000 14 14 14 14
13 due 1 = done, queue 5 / - 8000 14 14 14 14 made
13 fail 5 = done, end row / - 7000 14 14 14 14 14*
13 take 1 = end 14 row / - 7000 14 14 14 14 14*";

const PUSHBACK: &str = "# hedge 3 10 a delay that the server asks for
0 begin = call 1 / - 10000
0 configure 1 = done / 0 10000
0 due 1 = done, queue 1 / - 10000 made
0 place 1 = done / 10 10000 open
5 status 1 14 7 = done / 7000005 9000 14
7000004 due 1 = done / 7000005 9000 14
7000005 due 1 = done, queue 2 / - 9000 14 made
7000005 place 2 = done / 7000015 9000 14 open
7000015 due 1 = done, queue 3 / - 9000 14 open made
# hedge 4 50000000 the later of two ends says when
0 begin = call 1 / - 10000
0 configure 1 = done / 0 10000
0 due 1 = done, queue 1 / - 10000 made
0 place 1 = done / 50000000 10000 open
50000000 due 1 = done, queue 2 / - 10000 open made
50000000 place 2 = done / 100000000 10000 open open
60000000 status 1 14 20 = done / 80000000 9000 14 open
61000000 status 2 14 = done / 61000000 8000 14 14
61000000 due 1 = done, queue 3 / - 8000 14 14 made
61000000 place 3 = done / 111000000 8000 14 14 open
62000000 status 3 14 5 = done / 67000000 7000 14 14 14
# hedge 3 10 a stop leaves what is outstanding
0 begin = call 1 / - 10000
0 configure 1 = done / 0 10000
0 due 1 = done, queue 1 / - 10000 made
0 place 1 = done / 10 10000 open
10 due 1 = done, queue 2 / - 10000 open made
10 place 2 = done / 20 10000 open open
12 status 1 14 stop = done / - 9000 14 open
20 due 1 = done / - 9000 14 open
21 status 2 14 = done, end row / - 8000 14 14*
21 take 1 = end 14 row / - 8000 14 14*";

const TOKENS: &str = "# hedge 3 50 no hedge where the tokens forbid it
0 lose = done / 9000
0 lose = done / 8000
0 lose = done / 7000
0 lose = done / 6000
0 lose = done / 5000
0 begin = call 1 / - 5000
0 configure 1 = done / 0 5000
0 due 1 = done, queue 1 / - 5000 made
0 place 1 = done / 50 5000 open
50 due 1 = done / - 5000 open
51 gain = done / - 5546 open
60 unsent 1 = done, queue 2 / - 5546 14 made
60 place 2 = done / - 5546 14 open
70 status 2 14 1 = done, end row / - 4546 14 14*
70 take 1 = end 14 row / - 4546 14 14*
# hedge 3 10 an end that leaves too few tokens stops hedging
0 lose = done / 9000
0 lose = done / 8000
0 lose = done / 7000
0 lose = done / 6000
0 begin = call 1 / - 6000
0 configure 1 = done / 0 6000
0 due 1 = done, queue 1 / - 6000 made
0 place 1 = done / 10 6000 open
10 due 1 = done, queue 2 / - 6000 open made
10 place 2 = done / 20 6000 open open
12 status 1 14 = done / - 5000 14 open
20 gain = done / - 5546 14 open
20 due 1 = done / - 5546 14 open
20 status 2 0 = done, end row / - 6092 14 0*
# hedge 3 10 the tokens count when the server's delay is over
0 lose = done / 9000
0 lose = done / 8000
0 lose = done / 7000
0 lose = done / 6000
0 begin = call 1 / - 6000
0 configure 1 = done / 0 6000
0 due 1 = done, queue 1 / - 6000 made
0 place 1 = done / 10 6000 open
5 status 1 14 7 = done / 7000005 5000 14
6 gain = done / 7000005 5546 14
7000005 due 1 = done, queue 2 / - 5546 14 made
7000005 place 2 = done / 7000015 5546 14 open
7000006 status 2 14 7 = done / 14000006 4546 14 14
14000006 due 1 = done, end row / - 4546 14 14*
14000006 take 1 = end 14 row / - 4546 14 14*";

#[test]
fn heads_commit(rt: HostRuntime) -> Result<(), Fail> {
    assert_eq!(rt; first_wrong(rt.alloc(), HEADS)?.as_str(), "");
    Ok(())
}

#[test]
fn ends_force_attempts(rt: HostRuntime) -> Result<(), Fail> {
    assert_eq!(rt; first_wrong(rt.alloc(), FORCED)?.as_str(), "");
    Ok(())
}

#[test]
fn servers_push_back(rt: HostRuntime) -> Result<(), Fail> {
    assert_eq!(rt; first_wrong(rt.alloc(), PUSHBACK)?.as_str(), "");
    Ok(())
}

#[test]
fn tokens_stop_hedging(rt: HostRuntime) -> Result<(), Fail> {
    assert_eq!(rt; first_wrong(rt.alloc(), TOKENS)?.as_str(), "");
    Ok(())
}
