// Bad lines, each with its cause, and lines at each bound that are read.
//
// A row is the cause in two digits, the kind of script, in a small letter where no line feed ends the last line, and the
// lines with bars between. In them `{T*N}` stands for T so often; a `#` in T is the number of the time, from 0.
use script_lines::{BadLine, ScriptKind, ScriptReader};
use std::alloc::Global;
use std::process::Abort;
use std::test::Fail;

/// The bad lines of an independent model.
static MODEL: &str = "\
06Rchannel 1 ipv4:1.2.3.4|10001002 5328165205030402765 finish\n\
01R0 0 ping 1 0011223344556677\n\
05Rchannel 1 ipv4:1.2.3.4|1000000 0 yes\n\
06Rchannel 1 ipv4:1.2.3.4|row 1\n\
06Rchannel 1 ipv4:1.2.3.4|0 6069622583029511440 resolved 127.0.0.1:50051 - x\n\
06Rchannel 1 ipv4:1.2.3.4|20000001000 15328800010072390061 dial -\n\
07Rchannel 1 ipv4:1.2.3.4|0 0 ping 1 -\n\
04Rchannel 1 ipv4:1.2.3.4|10001000 01 begin /a.B/C - 100000000000 -\n\
04Rchannel 1 ipv4:1.2.3.4|A 18446744073709551615 drain 1 100\n\
01R0 0 begin /a/b/c - 01 a:00\n\
01Rchannel 1 ipv4:127.0.0.1:50051,127.0.0.1:50052 x\n\
07Rchannel 1 ipv4:1.2.3.4|0 0 ping 1 00112233445566778899\n\
08Rchannel 1 ipv4:1.2.3.4|0 0 begin /a/b/c - 01 grpc-x:41\n\
04Rchannel 1 ipv4:1.2.3.4|channel 2 ipv4:1.2.3.4\n\
06Rchannel 1 ipv4:1.2.3.4|20018000001 18446744073709551615 up 1 -\n\
01Rk:0 1 ipv4:127.0.0.1:50051\n\
07Rchannel 1 ipv4:1.2.3.4|0 0 ping 1 001122334455667A\n\
05Rchannel 1 ipv4:1.2.3.4|0 9223372036854775808 127.0.0.1:50053,127.0.0.1:50052 7b226d6574686f64436f6e666967223a5b7b226e616d65223a5b7b7d5d7d5d7d\n\
07Rchannel 1 ipv4:1.2.3.4|0 0 send 1 0\n\
05Rchannel 1 ipv4:1.2.3.4|0 0 config 7b7d\n\
01Rchannel K:00 ipv4:127.0.0.1:50051\n\
05Rchannel 1 ipv4:1.2.3.4|0 0 begin /a/b maybe 1000000000000000001 a:20\n\
04Rchannel 1 ipv4:1.2.3.4|15000000-001 4079894412614050754 arrived 2 00000004000000000000000004010000000000000408000000000000\n\
04Rchannel 1 ipv4:1.2.3.4|/ 9223372036854775808 dial\n\
01R0 0 ping 1 00112233445566778899\n\
04Rchannel 1 ipv4:1.2.3.4|12000002 5586234889139788395 finish :\n\
04Rchannel 1 ipv4:1.2.3.4|2000000 0 drain 1 x\n\
06Rchannel 1 ipv4:1.2.3.4|9223372036854775808 dial\n\
05Rchannel 1 ipv4:1.2.3.4|0 0 begin /a/b maybe - a:20\n\
06Rchannel 1 ipv4:1.2.3.4|0\n\
07Rchannel 1 ipv4:1.2.3.4|0 0 arrived 1 0\n\
09Rchannel 1 ipv4:1.2.3.4|0 0 begin /a/b - - a\n\
10Rchannel 1 ipv4:1.2.3.4|0 0 resolved 1.2.3.4 7b7d\n\
10Rchannel 1 dns:-x\n\
04Rchannel 1 ipv4:1.2.3.4|0 0 begin /a/b - 01 -\n\
07Rchannel 1 ipv4:1.2.3.4|0 0 send 1 \n\
10Rchannel 2 ipv4:\n\
06Rchannel 1 ipv4:1.2.3.4|18001000 18446744073709551615 arrived 1 00 -\n\
01Rchannel 3 ipv4:\n\
04Rchannel 1 ipv4:1.2.3.4|0 5893612703463706378 drain 01 16393\n\
06Rchannel 1 ipv4:1.2.3.4|1001000 13353206242282213725 begin /a.B/C - - k:76 x\n\
06Rchannel 1 ipv4:1.2.3.4|1006001000 0 tick x\n\
06Rchannel 1 ipv4:1.2.3.4|0 9223372036854775808 resolved 127.0.0.1:50052 7b226c6f616442616c616e63696e67436f6e666967223a5b7b226f74686572223a7b7d7d5d7d x\n\
07Rchannel 1 ipv4:1.2.3.4|0 0 send 1 0G\n\
01Rchannel 1 ipv4:127.0.0.1:50051 \n\
08Rchannel 1 ipv4:1.2.3.4|0 0 begin /a/b/c - x -\n\
06Rchannel 1 ipv4:1.2.3.4|0 dial\n\
01R0 0 begin /{a*1021}/b - - a:00\n\
01R0 0 resolved {1.2.3.#:80,*63}1.2.3.63:80 7b7\n\
01Rchannel 3 ipv4:{1.2.3.4,*63}1.2.3.4 \n\
01Rchannel 3 ipv4:{1.2.3.4,*64}1.2.3.4\n\
01R0 0 begin /a/b/c - - a-bin:{41*10725}\n\
03Rchannel 1 ipv4:1.2.3.4|0 18446744073709551615 res\x7flved 127.0.0.1:50052,127.0.0.1:50053 7b226c6f616442616c616e63696e67436f6e666967223a5b7b22726f756e645f726f62696e223a7b7d7d5d2c226d6574686f64436f6e666967223a5b7b226e616d65223a5b7b2273657276696365223a22612e42227d5d2c2268656467696e67506f6c696379223a7b226d6178417474656d707473223a322c2268656467696e6744656c6179223a223073222c226e6f6e466174616c537461747573436f646573223a5b31345d7d2c226d6178526573706f6e73654d6573736167654279746573223a307d2c7b226e616d65223a5b7b2273657276696365223a22612e42222c226d6574686f64223a2243227d5d7d2c7b226e616d65223a5b7b2273657276696365223a2273222c226d6574686f64223a224d227d5d2c2277616974466f725265616479223a66616c73657d5d7d\n\
03rchannel 1 ipv4:1.2.3.4|0 0 tick \n\
03Rchannel 1 ipv4:1.2.3.4|0 21350698856758\x003526 drain 1 65536\n\
03Rchannel 1 ipv4:1.2.3.4|1002000 9223372036854775808 take \x7f\n\
03Rchannel 1 ipv4:1.2.3.4|20006001000 0 arrived 2 0\x7f\n\
03Rchannel 1 ipv4:1.2.3.4|1 0 begin /s/M - - k:7\x00\n\
03rchannel 1 ipv4:1.2.3.4|0 0 begin /a/b - - a-bin:{41*10725}\n\
04Rchannel 1 ipv4:1.2.3.4|channel k:0 ipv4:{1.2.3.4,*64}1.2.3.4\n\
04Rchannel 1 ipv4:1.2.3.4|0 resolved 127.0.0.1:50051 7b226c6f616442616c616e63696e67436f6e666967223a5b7b22756e6b6e6f776e223a7b7d7d2c7b22726f756e645f726f62696e223a7b7d7d5d2c226d6574686f64436f6e666967223a5b7b226e616d65223a5b7b2273657276696365223a22612e42227d5d2c226d6178526573706f6e73654d6573736167654279746573223a22313030227d5d7d\n\
04Rchannel 1 ipv4:1.2.3.4|7001001 1.2.3.4:0 tick\n\
04Rchannel 1 ipv4:1.2.3.4|x 9223372036854775808 up 1\n\
04Rchannel 1 ipv4:1.2.3.4|A 3484496886340427579 dial\n\
04Rchannel 1 ipv4:1.2.3.4|8001004 send 1 -\n\
04Rchannel 1 ipv4:1.2.3.4|0 0 begin /a/b - x a:{41*14304}\n\
05Rchannel 1 ipv4:1.2.3.4|0 0 begin /a/b maybe 01 a-bin:{41*10724}\n\
05Rchannel 1 ipv4:1.2.3.4|0 9223372036854775808 127.0.0.1:50052,127.0.0.1:50054,127.0.0.1:50051 7b226d6574686f64436f6e666967223a5b7b226e616d65223a5b7b2273657276696365223a22612e42222c226d6574686f64223a2243227d5d2c227265747279506f6c696379223a7b226d6178417474656d707473223a342c22696e697469616c4261636b6f6666223a22302e3173222c226d61784261636b6f6666223a22313073222c226261636b6f66664d756c7469706c696572223a312c22726574727961626c65537461747573436f646573223a5b22554e415641494c41424c45222c322c385d7d7d5d7d\n\
05Rchannel 1 ipv4:1.2.3.4|0 0 dance\n\
05Rchannel 1 ipv4:1.2.3.4|1001000 9223372036854775808 begin /a.B/D y:s - k:76\n\
05Rchannel 1 ipv4:1.2.3.4|0 0 begin /a/b maybe - a-bin:{41*10725}\n\
05Rchannel 1 ipv4:1.2.3.4|6000000 1844674407 709551615 send 2 53\n\
05Rchannel 1 ipv4:1.2.3.4|0 0 begin /a/b maybe 1000000000000000001 a-bin:{41*10725}\n\
05Rchannel 1 ipv4:1.2.3.4|0 0 {1.2.3.#:80,*64}1.2.3.64:80 7b7d\n\
06Rchannel 1 ipv4:1.2.3.4|0 15819706183279919329 resolved 127.0.0.1:50052,127.0.0.1:50053 7b226d6574686f64436f6e666967223a5b7b226e616d65223a5b7b7d5d2c2268656467696e67506f6c696379223a7b226d6178417474656d707473223a332c2268656467696e6744656c6179223a22302e30303030303030303173222c226e6f6e466174616c537461747573436f646573223a5b31342c385d7d2c226d6178526573706f6e73654d6573736167654279746573223a22313030227d5d7d x\n\
06Rchannel 1 ipv4:1.2.3.4|\n\
06Rchannel 1 ipv4:1.2.3.4|0 0\n\
07Rchannel 1 ipv4:1.2.3.4|0 0 resolved {1.2.3.#:80,*63}1.2.3.63:80 7B\n\
07Rchannel 1 ipv4:1.2.3.4|0 0 ping 1 001122334455667\n\
07Rchannel 1 ipv4:1.2.3.4|0 0 arrived 1 0G\n\
08Rchannel 1 ipv4:1.2.3.4|0 0 begin /{a*1022}/b - 01 te:41\n\
08Rchannel 1 ipv4:1.2.3.4|0 0 begin /a/b/c - - -\n\
08Rchannel 1 ipv4:1.2.3.4|0 0 begin /a/b/c - 01 te:41\n\
08Rchannel 1 ipv4:1.2.3.4|0 0 begin /{a*1022}/b - - a:20\n\
08Rchannel 1 ipv4:1.2.3.4|0 0 begin /{a*1022}/b - x :41\n\
08Rchannel 1 ipv4:1.2.3.4|0 0 begin /{a*1022}/b maybe - a:{41*14303}\n\
08Rchannel 1 ipv4:1.2.3.4|0 0 begin /a/b/c - - te:41\n\
08Rchannel 1 ipv4:1.2.3.4|0 0 begin /a/b/c - 01 a:{41*14303}\n\
08Rchannel 1 ipv4:1.2.3.4|0 0 begin /{a*1022}/b - x a:4\n\
08Rchannel 1 ipv4:1.2.3.4|0 0 begin /a/b/c - 1000000000000000001 grpc-x:41\n\
08Rchannel 1 ipv4:1.2.3.4|0 0 begin /{a*1022}/b - - a-bin:00\n\
09Rchannel 1 ipv4:1.2.3.4|0 0 begin /a/b - - a:{41*14304}\n\
09Rchannel 1 ipv4:1.2.3.4|0 0 begin /{a*1021}/b - - grpc-x:41\n\
09Rchannel 1 ipv4:1.2.3.4|0 0 begin /{a*1021}/b - - a-bin:{41*10725}\n\
09Rchannel 1 ipv4:1.2.3.4|0 0 begin /a/b - - grpc-x:41\n\
09Rchannel 1 ipv4:1.2.3.4|0 0 begin /a/b - - a:00\n\
10Rchannel 1 ipv4:{1.2.3.4,*64}1.2.3.4\n\
10Rchannel 1 ipv4:01.2.3.4\n\
10Rchannel 1 ipv4:1A.0.0.1\n\
10Rchannel 1 00\n\
10Rchannel 1 ipv4:\n\
10Rchannel 1 4294967295\n\
10Rchannel 1 ipv4:1.2.3.4|0 0 resolved {1.2.3.#:80,*64}1.2.3.4 7b7d\n\
10Rchannel 1 ipv4:1.2.3.4|0 7431096396263907651 resolved 4294967295 7b226c6f616442616c616e63696e67506f6c696379223a225049434b5f4649525354222c226d6574686f64436f6e666967223a5b7b226e616d65223a5b7b7d5d2c227265747279506f6c696379223a7b226d6178417474656d707473223a392c22696e697469616c4261636b6f6666223a22302e30303030303030303173222c226d61784261636b6f6666223a22302e303573222c226261636b6f66664d756c7469706c696572223a322c22726574727961626c65537461747573436f646573223a5b22554e415641494c41424c45222c322c385d7d2c226d6178526571756573744d6573736167654279746573223a307d5d7d\n\
10Rchannel 1 ipv4:1.2.3.4|0 0 resolved 1.2.3.04:1 7b7\n\
10Rchannel 1 ipv4:1.2.3.4|0 0 resolved {1.2.3.#:80,*64}1.2.3.04:1 7b7d\n\
11Rchannel 1 ipv4:1.2.3.4|0 0 resolved {1.2.3.#:80,*64}1.2.3.64:80 -\n\
11Rchannel 1 ipv4:1.2.3.4|0 0 resolved {1.2.3.#:80,*64}1.2.3.64:80 7B\n\
11Rchannel 1 ipv4:1.2.3.4|0 0 resolved {1.2.3.#:80,*64}1.2.3.64:80 7b7\n\
11Rchannel 1 ipv4:1.2.3.4|0 0 resolved {1.2.3.#:80,*64}1.2.3.64:80 ";

/// Each cause, also two in one line, and lines at each bound; the cause 00 where all is read.
static CASES: &str = "\
00Rchannel 1 ipv4:1.2.3.4|4000000000000000000 18446744073709551615 take 4294967295\n\
04Rchannel 1 ipv4:1.2.3.4|4000000000000000001 0 tick\n\
04Rchannel 1 ipv4:1.2.3.4|0 18446744073709551616 tick\n\
04Rchannel 1 ipv4:1.2.3.4|0 0 take 4294967296\n\
04Rchannel 1 ipv4:1.2.3.4|00 0 tick\n\
04Rchannel 1 ipv4:1.2.3.4|0 0 drain 1 +5\n\
00Rchannel 1 ipv4:1.2.3.4|0 0 drain 4294967295 4294967295\n\
00Rchannel 1 ipv4:1.2.3.4|0 0 begin /a/b yes 1000000000000000000 k-bin:00ff,k:,k:6161\n\
00Rchannel 1 ipv4:1.2.3.4|0 0 begin /a/b no 0 -\n\
11Rchannel 1 ipv4:1.2.3.4|0 0 begin /a/b - 1000000000000000001 -\n\
11Rchannel 1 ipv4:1.2.3.4|0 0 begin /a/b - 99999999999999999999999999 K:00\n\
04Rchannel 1 ipv4:1.2.3.4|0 0 begin /a/b - 0x1 K:00\n\
09Rchannel 1 ipv4:1.2.3.4|0 0 begin /a/b - - K:61\n\
09Rchannel 1 ipv4:1.2.3.4|0 0 begin /a/b - - k:20\n\
09Rchannel 1 ipv4:1.2.3.4|0 0 begin /a/b - - k:6A\n\
09Rchannel 1 ipv4:1.2.3.4|0 0 begin /a/b - - k:61,\n\
09Rchannel 1 ipv4:1.2.3.4|0 0 begin /a/b - - \n\
08Rchannel 1 ipv4:1.2.3.4|0 0 begin a/b maybe x K\n\
05Rchannel 1 ipv4:1.2.3.4|0 0 begin /a/b maybe x K\n\
08Rchannel 1 ipv4:1.2.3.4|0 0 begin /a//b - - -\n\
10Rchannel 1 ipv4:1.2.3.4|0 0 resolved 1.2.3.4:0 zz\n\
10Rchannel 1 ipv4:1.2.3.4|0 0 resolved 1.2.3.4 -\n\
10Rchannel 1 ipv4:1.2.3.4|0 0 resolved  -\n\
07Rchannel 1 ipv4:1.2.3.4|0 0 resolved 1.2.3.4:1 7B\n\
07Rchannel 1 ipv4:1.2.3.4|0 0 resolved - \n\
00Rchannel 1 ipv4:1.2.3.4|0 0 resolved 1.2.3.4:1,1.2.3.4:1 7b7d\n\
00Rchannel 1 ipv4:1.2.3.4|0 0 resolved - -\n\
07Rchannel 1 ipv4:1.2.3.4|0 0 arrived 1 -\n\
04Rchannel 1 ipv4:1.2.3.4|0 0 arrived x -\n\
00Rchannel 1 ipv4:1.2.3.4|0 0 ping 1 00112233445566ff\n\
07Rchannel 1 ipv4:1.2.3.4|0 0 ping 1 00112233445566f\n\
00Rchannel 1 ipv4:1.2.3.4|0 0 send 1 -\n\
00Rchannel 1 ipv4:1.2.3.4|0 0 unresolved\n\
00Rchannel 1 ipv4:1.2.3.4|0 0 dial\n\
00Rchannel 1 ipv4:1.2.3.4|0 0 up 1\n\
00Rchannel 1 ipv4:1.2.3.4|0 0 nodial 1\n\
00Rchannel 1 ipv4:1.2.3.4|0 0 lost 1\n\
00Rchannel 1 ipv4:1.2.3.4|0 0 finish 1\n\
00Rchannel 1 ipv4:1.2.3.4|0 0 cancel 1\n\
00Rchannel 1 ipv4:1.2.3.4|0 0 shutdown\n\
06Rchannel 1 ipv4:1.2.3.4|0 0 tick x\n\
06Rchannel 1 ipv4:1.2.3.4|x 0\n\
05Rchannel 1 ipv4:1.2.3.4|0 0 Tick\n\
04Rchannel 1 ipv4:1.2.3.4|x 0 dance\n\
04Rchannel 1 ipv4:1.2.3.4|0 x dance\n\
05Rchannel 1 ipv4:1.2.3.4|0 0 dance 1 2 3\n\
06Rchannel 1 ipv4:1.2.3.4|0 0 send x\n\
01R\n\
01Rchannel 1\n\
01Rchannel 1 x y\n\
01Rchannel 01 ipv4:1.2.3.4\n\
10Rchannel 1 \n\
00Rchannel 1 dns:localhost\n\
00Rchannel 2 dns:///a-1.example.com:50051|0 0 tick\n\
00Rchannel 2 ipv4:1.2.3.4|0 0 tick\n\
01Rchannel 3 ipv4:1.2.3.4\n\
01Rchannel 02 ipv4:1.2.3.4\n\
10Rchannel 2 dns:a..b\n\
10Rchannel 2 DNS:x\n\
00Rchannel 1 ipv4:1.2.3.4|0 0 resolved 1.2.3.4:1{,1.2.3.4:1*63} -\n\
11Rchannel 1 ipv4:1.2.3.4|0 0 resolved 1.2.3.4:1{,1.2.3.4:1*64} -\n\
10Rchannel 1 ipv4:1.2.3.4|0 0 resolved 1.2.3.4:1{,1.2.3.4:1*64},1.2.3.4 -\n\
00Rchannel 1 ipv4:1.2.3.4|0 0 resolved - {00000000*16384}\n\
11Rchannel 1 ipv4:1.2.3.4|0 0 resolved - {00000000*16384}00\n\
00Rchannel 1 ipv4:1.2.3.4|0 0 begin /a/{b*1021} - - -\n\
08Rchannel 1 ipv4:1.2.3.4|0 0 begin /a/{b*1022} - - -\n\
00Rchannel 1 ipv4:1.2.3.4|0 0 begin /a/b - - a:{41*14303}\n\
00Rchannel 1 ipv4:1.2.3.4|0 0 up 4294967295|0 0 nodial 4294967295|0 0 lost 4294967295|0 0 finish 4294967295|0 0 cancel 4294967295|0 0 send 4294967295 -|0 0 arrived 4294967295 00|0 0 ping 4294967295 0000000000000000\n\
04Rchannel 1 ipv4:1.2.3.4|0 0 finish 4294967296\n\
04Rchannel 1 ipv4:1.2.3.4|0 0 cancel 4294967296\n\
04Rchannel 1 ipv4:1.2.3.4|0 0 up 4294967296\n\
04Rchannel 1 ipv4:1.2.3.4|0 0 nodial 4294967296\n\
04Rchannel 1 ipv4:1.2.3.4|0 0 lost 4294967296\n\
04Rchannel 1 ipv4:1.2.3.4|0 0 send 4294967296 -\n\
04Rchannel 1 ipv4:1.2.3.4|0 0 arrived 4294967296 00\n\
04Rchannel 1 ipv4:1.2.3.4|0 0 ping 4294967296 0000000000000000\n\
04Rchannel 1 ipv4:1.2.3.4|0 0 drain 4294967296 1\n\
04Rchannel 1 ipv4:1.2.3.4|0 0 drain 1 4294967296\n\
00Rchannel 1 ipv4:1.2.3.4|0 0 begin /a/b - - k:\n\
00Rchannel 1 ipv4:1.2.3.4|0 0 begin /a/b - - k-bin:\n\
00Rchannel 1 ipv4:1.2.3.4|0 0 begin /a/b - - k-bin:20,k-bin:ff0a\n\
00Rchannel 1 ipv4:1.2.3.4|0 0 begin /a/b - - a-bin:{41*10724}\n\
09Rchannel 1 ipv4:1.2.3.4|0 0 begin /a/b - - a-bin:{41*10725}\n\
00Rchannel 1 ipv4:1.2.3.4|0 0 begin /a/b - - a:{,a:*432},a:{41*14}\n\
09Rchannel 1 ipv4:1.2.3.4|0 0 begin /a/b - - a:{,a:*432},a:{41*15}\n\
09Rchannel 1 ipv4:1.2.3.4|0 0 begin /a/b - - a:{,a:*434}\n\
09Rchannel 1 ipv4:1.2.3.4|0 0 begin /a/b - - k-bin:0\n\
09Rchannel 1 ipv4:1.2.3.4|0 0 begin /a/b - - k-bin:FA\n\
09Rchannel 1 ipv4:1.2.3.4|0 0 begin /a/b - - kK:61\n\
09Rchannel 1 ipv4:1.2.3.4|0 0 begin /a/b - - K-bin:00\n\
09Rchannel 1 ipv4:1.2.3.4|0 0 begin /a/b - - :61\n\
00Rchannel 1 ipv4:1.2.3.4|0 0 begin /a/b - - {a*256}:61\n\
09Rchannel 1 ipv4:1.2.3.4|0 0 begin /a/b - - {a*257}:61\n\
00Rchannel 1 ipv4:1.2.3.4|0 0 resolved {1.2.3.#:80,*63}1.2.3.63:80 -\n\
00Rchannel 1 ipv4:{1.2.3.4,*63}1.2.3.4\n\
03Rchann\x7fl 2 x\n\
03rchannel 2 x\n\
03rchannel 1 ipv4:1.2.3.4|0\n\
06Rchannel 1 ipv4:1.2.3.4|00 00\n\
04Rchannel 1 ipv4:1.2.3.4|0 00 send\n\
05Rchannel 1 ipv4:1.2.3.4|0 0 begin /a/b maybe 1000000000000000001 -\n\
04Rchannel 1 ipv4:1.2.3.4|0 0 send 01 6\n\
07Rchannel 1 ipv4:1.2.3.4|0 0 resolved - {00000000*16384}000\n\
09Lchannel 1 ipv4:1.2.3.4|call 16 /a/b yes 5 k:00 - 6869\n\
00Lchannel 1 ipv4:1.2.3.4|config 7b7d|call 16 /a/b yes 5 k:61 - 6869\n\
00Lchannel 1 ipv4:1.2.3.4|call 1 /a/b - - -\n\
05Lchannel 1 ipv4:1.2.3.4|call 1 /a/b - - -|config 7b7d\n\
05Lchannel 1 ipv4:1.2.3.4|0 0 tick\n\
05Lchannel 1 ipv4:1.2.3.4|\n\
06Lchannel 1 ipv4:1.2.3.4|call 1 /a/b - -\n\
06Lchannel 1 ipv4:1.2.3.4|config\n\
07Lchannel 1 ipv4:1.2.3.4|config -\n\
07Lchannel 1 ipv4:1.2.3.4|config \n\
07Lchannel 1 ipv4:1.2.3.4|config 7B\n\
04Lchannel 1 ipv4:1.2.3.4|call 0 ab maybe x K x\n\
04Lchannel 1 ipv4:1.2.3.4|call 17 ab maybe x K x\n\
08Lchannel 1 ipv4:1.2.3.4|call 1 ab maybe x K x\n\
05Lchannel 1 ipv4:1.2.3.4|call 1 /a/b maybe x K x\n\
04Lchannel 1 ipv4:1.2.3.4|call 1 /a/b - x K x\n\
11Lchannel 1 ipv4:1.2.3.4|call 1 /a/b - 1000000000000000001 K x\n\
09Lchannel 1 ipv4:1.2.3.4|call 1 /a/b - - K x\n\
07Lchannel 1 ipv4:1.2.3.4|call 1 /a/b - - - - x\n\
01Lconfig 7b7d\n\
00Lchannel 2 dns:localhost:1|call 1 /a/b - - -\n\
10Lchannel 1 ipv4:\n\
00Lchannel 1 ipv4:1.2.3.4|config {00000000*16384}\n\
11Lchannel 1 ipv4:1.2.3.4|config {00000000*16384}00\n\
00Lchannel 1 ipv4:1.2.3.4|call 1 /a/b - - -{ -*64}\n\
06Lchannel 1 ipv4:1.2.3.4|call 1 /a/b - - -{ -*65}\n\
10Lchannel 1 ipv4:{1.2.3.4,*64}1.2.3.4\n\
04Lchannel 1 ipv4:1.2.3.4|call 0 /a/b - - -\n\
04Lchannel 1 ipv4:1.2.3.4|call 17 /a/b - - -\n\
04Lchannel 1 ipv4:1.2.3.4|call 01 /a/b - - -\n\
00Lchannel 1 ipv4:1.2.3.4|call 1 /a/b - 1000000000000000000 k:,k-bin:00ff\n\
11Lchannel 1 ipv4:1.2.3.4|call 1 /a/b - 1000000000000000001 -\n\
09Lchannel 1 ipv4:1.2.3.4|call 1 /a/b - - kK:61\n\
03lchannel 1 ipv4:1.2.3.4|call 1 /a/b - - -\n\
05Lchannel 1 ipv4:1.2.3.4|call 1 /a/b - - -|config\n\
06Lchannel 1 ipv4:1.2.3.4|call 0 ab\n\
06Lchannel 1 ipv4:1.2.3.4|config 7B x\n\
07Lchannel 1 ipv4:1.2.3.4|config {00000000*16384}000\n\
00Sanswer /a.B/C 1 w1,h,m6f6b,s0|answer /a.B/C 2 h,m6f6b,s0|answer /a.B/D 1 g\n\
00Sanswer /a/b 1 h,m,p7,s4294967295,g,g\n\
00Sanswer /a/b 1 r7,g\n\
05Schannel 1 ipv4:1.2.3.4\n\
05S\n\
06Sanswer /a/b 1\n\
06Sanswer /a/b 1 h x\n\
08Sanswer ab 2 x\n\
04Sanswer /a/b 2 x\n\
04Sanswer /a/b 1 h|answer /a/b 1 h\n\
04Sanswer /a/b 01 h\n\
04Sanswer /a/b 0 h\n\
05Sanswer /a/b 1 x\n\
05Sanswer /a/b 1 \n\
05Sanswer /a/b 1 h,\n\
05Sanswer /a/b 1 hh\n\
05Sanswer /a/b 1 p\n\
05Sanswer /a/b 1 s0,h\n\
05Sanswer /a/b 1 s0,m6\n\
05Sanswer /a/b 1 r7,s0\n\
04Sanswer /a/b 1 s01,x\n\
04Sanswer /a/b 1 w\n\
04Sanswer /a/b 1 r4294967296\n\
07Sanswer /a/b 1 m6,s01\n\
07Sanswer /a/b 1 m-\n\
07Sanswer /a/b 1 mFF\n\
00Sanswer /a/b 1 p{7*1024},s0\n\
05Sanswer /a/b 1 p{7*1025},s0\n\
00Sanswer /a/b 1 w4294967295,r4294967295\n\
04Sanswer /a/b 1 s4294967296\n\
04Sanswer /a/b 1 w4294967296\n\
04Sanswer /a/b 4294967296 h\n\
03sanswer /a/b 1 h\n\
03Sansw\x7fr\n\
05Sreply ab\n\
06Sanswer ab 2";

/// Appends an item so often, with the number of the time, from 0, in the place of its `#`.
fn append_times(alloc: Global, text: &mut String, item: &str, count: u32) -> Result<(), Fail> {
    for n in 0..count {
        match item.split_once('#') {
            Some((head, tail)) => {
                let one = format!(in alloc; "{head}{n}{tail}")?;
                text.push_str(one.as_str())?;
            }
            None => text.push_str(item)?,
        }
    }
    Ok(())
}

/// The lines that a row stands for.
fn lines_of(alloc: Global, row: &str) -> Result<String, Fail> {
    let mut text = String::new(alloc);
    for piece in row.split('{') {
        match piece.split_once('}') {
            Some((times, rest)) => {
                let (item, count) = times.split_once('*').ok_or("a count")?;
                append_times(alloc, &mut text, item, count.parse::<u32>()?)?;
                text.push_str(rest)?;
            }
            None => text.push_str(piece)?,
        }
    }
    Ok(text)
}

/// What a reader reports of these lines, which stand between bars: the number of the first bad line and its cause.
fn reported(alloc: Global, kind: ScriptKind, lines: &str, ended: bool) -> (u64, u8) {
    let last = lines.split('|').count().saturating_sub(1);
    let mut reader = ScriptReader::new(alloc, kind);
    for (n, line) in lines.split('|').enumerate() {
        match reader.line(line.as_bytes(), ended || n != last) {
            Ok(_) => {}
            Err(BadLine::At { line, cause }) => return (line, cause),
            Err(BadLine::NoMemory) => return (0, 255),
        }
    }
    (0, 0)
}

/// The kind of script of this letter.
fn kind_of(letter: u8) -> ScriptKind {
    match letter {
        b'L' | b'l' => ScriptKind::Live,
        b'S' | b's' => ScriptKind::Server,
        _ => ScriptKind::Replay,
    }
}

/// Whether a row is reported as it says: where its last line is bad, that one with its cause.
fn is_reported(alloc: Global, row: &str) -> Result<bool, Fail> {
    let bytes = row.as_bytes();
    let [tens, ones, letter, ..] = bytes else {
        return Ok(false);
    };
    let cause = (tens.saturating_sub(b'0'))
        .saturating_mul(10)
        .saturating_add(ones.saturating_sub(b'0'));
    let lines = lines_of(alloc, row.get(3..).ok_or("lines")?)?;
    let count = lines.split('|').count() as u64;
    let want = if cause == 0 { (0, 0) } else { (count, cause) };
    let ended = letter.is_ascii_uppercase();
    Ok(reported(alloc, kind_of(*letter), lines.as_str(), ended) == want)
}

/// Tests each row of a table.
fn expect(rt: &impl Abort, alloc: Global, table: &str) -> Result<(), Fail> {
    for row in table.split('\n') {
        assert!(rt; is_reported(alloc, row)?, "{row}");
    }
    Ok(())
}

#[test]
fn bad_lines_are_as_an_independent_model_reports_them(rt: HostRuntime) -> Result<(), Fail> {
    expect(&rt, rt.alloc(), MODEL)
}

#[test]
fn the_first_cause_is_reported(rt: HostRuntime) -> Result<(), Fail> {
    expect(&rt, rt.alloc(), CASES)
}
