// The tables: what is said, and what modes, options, events, answers and configs take. A row is a key, a colon and its words.
use grpc_base::first_piece;

/// The sentences by their names: `$` stands for the value at fault, `~` for what goes with it, `^` for what could stand there, `#` for a number, `%` for a byte.
pub fn sentences() -> &'static str {
    "not-text: a word of the command is not UTF-8 text
no-mode: no mode is given; modes:
bad-mode: no mode '$'
no-option: no option $
top-option: no option '$'; options: --help, --version
a-word: '$' is a word too many;
twice: $ stands twice
no-value: $: nothing stands after it; it takes a number
no-number: $: '~' is not a number
signed: $: '~' has a sign or a leading zero; it takes a number
alone: --keepalive-timeout stands beside --keepalive alone
refused: these words are refused
directory: standard input is a directory
closed: a read failed after 0 bytes of standard input: it is closed, or cannot be read; nothing was written
unread: a read failed after # bytes of standard input; nothing was written
full: no space is left for standard output, which is cut off
unwritten: a write to standard output failed, which is cut off
memory: out of memory
session: the session is full: it has 1048576 entries or 268435456 bytes at most; the report has the events before
unheard: the port cannot be listened at, or a link was not accepted; nothing was written
no-input: no input
empty-live: no input; a script begins with its channel: channel 2 <target>, as channel 2 ipv4:127.0.0.1:50051
empty-line: an empty line; a script has none
comment: a comment; a script has none (those in words have: tools/script)
empty-field: an empty field; one space stands between two fields, and none at a line's end
mark: a byte order mark (ef bb bf); save the file as UTF-8 without one
cr-lf: CR LF at its end; end lines with LF alone, as dos2unix does
tab: a tab; one space stands between two fields
byte: byte % is not printable ASCII (20 to 7e)
no-feed: no line feed ends the last line
is-config: a service config and not a script; for its reading: grpcc config < f.json
is-report: a report and not a script; make a script of it: grpcc migrate < f.report
is-live: a live script; run it by: grpcc live < f.live
is-server: a server script; serve by it: grpcc serve --port <n> --links <n> < f.server
no-channel: a script begins with its channel: channel 2 <target>, as channel 2 ipv4:127.0.0.1:50051
no-version: no version '$' of scripts; versions: 1 2
line-of-events: a line is: <moment> <word> <event>, as 0 0 dial
no-event: no event '$'; events:
no-line: no line '$' after the first; lines: config (line 2 alone) call
no-relay-line: no line '$' after the first; lines: config (line 2 alone)
relay-call: a script of a relay has no calls; its clients make them
no-answer: no line '$' (answer?); a line is: answer <path> <n> <parts>
after-rows: an event after the rows; in a report all events stand before them
config-line: a config stands in line 2 alone
takes: '$' takes: $~
messages: # messages; a call has 64 at most
no-bytes: no bytes: an 'arrived' has one byte at least
no-config: no bytes: a config has one byte at least; leave its line out where there is none
<moment>: '$' is not a moment: it takes nanoseconds, a number up to 4000000000000000000, without leading zeros
<word>: '$' is not a random word: it takes a number up to 18446744073709551615, without leading zeros
<call>: '$' is not a call: it takes a number up to 4294967295, without leading zeros
<sub>: '$' is not a subchannel: it takes a number up to 4294967295, without leading zeros
<link>: '$' is not a link: it takes a number up to 4294967295, without leading zeros
<room>: '$' is not a room: it takes a number up to 4294967295, without leading zeros
<worker>: '$' is not a worker: it takes a number from 1 to 16, without leading zeros
<n>: '$' is not the number of an answer: it takes a number up to 4294967295, without leading zeros
<digits>: '$' is not the word of a ping; it takes 16 digits of lower-case hex
<path>: '$' is not a path; it takes /service/method, as /a.B/C
long-path: a path of # bytes; it has 1024 at most
<wait>: '$' is not a wait; it takes yes, no or -
<timeout>: '$' is not a timeout; it takes nanoseconds up to 1000000000000000000 without leading zeros, or - for none
timeout-unit: '$' is not a timeout; it takes nanoseconds up to 1000000000000000000 without leading zeros, or - for none ($ is #)
hex: '$' is not hex; it takes two lower-case digits a byte; texts go through tools/script write
odd-hex: # digits of hex; each byte has two
capital-hex: hex in capitals; it takes lower-case digits
long-hex: a value of # bytes, past its limit
no-colon: '$' is not metadata; it takes - or name:hex with commas, as a:31,b-bin:00
meta-name: '$' is not a name that a request sends: 1 to 256 of a to z, 0 to 9, - _ and ., not beginning with grpc-, and not te, content-type, host, connection, keep-alive, proxy-connection, transfer-encoding or upgrade
meta-value: the value of '$' has a byte outside 20 to 7e, or a space at an end; only a name that ends in -bin has other values
meta-long: metadata of more than 14336 bytes, each pair counted as its name, its value as it is sent and 32
no-port: an address without a port; write $:443, with its port from 1 to 65535
no-address: '$' is not an address; it takes a.b.c.d:port, as 10.0.0.1:50051
addresses: more than 64 addresses
no-host: '$' has no host, or no port, after dns: as dns:example.com:50051 has
no-scheme: a target without its scheme; write ipv4:$
no-target: '$' is not a target; it takes ipv4:127.0.0.1:50051, with commas between addresses, or dns:example.com:50051
near-target: '$' is not a target; it takes ipv4:127.0.0.1:50051, with commas between addresses, or dns:example.com:50051 (dns:~?)
turn: '$' is out of turn: the next answer of this path has the number #
no-part: no part '$'; parts: h m<hex> s<code> p<text> r<code> g w<k>
after-end: '$' stands after '~'; after an s or an r only g stands
part-number: '$' is not a number up to 4294967295, which an s, an r or a w takes
part-name: '$' is not a number (#?)
pushback: a p takes a text of 1 to 1024 bytes
no-status: status $ has no name; clients read it as UNKNOWN
no-code: reset code $ has no name
no-wait: w0 waits for nothing
no-config-text: standard input has no config; the empty one is {}
open-string: the text ends inside a string
open-bracket: the text ends before its brackets are closed
escape: no escape is written so; escapes are \\\" \\\\ \\/ \\b \\f \\n \\r \\t and \\u with four digits
string-line: a string goes over the end of its line, or has a control character that is not escaped
not-utf8: this is not UTF-8 text, or not one of the four digits after \\u
json-mark: a byte order mark, or other bytes that are not JSON; save the file as UTF-8 without a mark
json-comment: JSON has no comments
json-quote: JSON has double quotes, not single ones
json-begin: a config is an object; it begins with {
json-after: something stands after the config; it ends with its closing bracket
json-comma: a comma stands before a closing bracket
json-name: a name in double quotes has to stand here
json-colon: a colon has to stand here, after the name
json-value: a value has to stand here
json-between: a comma has to stand before this
json-on: a value does not go on like this
json-twice: a name stands twice in one object
json-deep: more than 32 brackets are open, the most that a config has
json-exponent: a number with an exponent; write its digits out, as 100 for 1e2
json-long: more than 65536 bytes, the most that a config has
field-missing: $: missing; it takes
field-wrong: $: 
name-twice: $: the name 
both: $: it has a retryPolicy and a hedgingPolicy; it takes one of them
no-policy: no load balancing policy is named; supported:
bad-policy: no load balancing policy that it names is supported, as $^; supported:
passed: $: no field of that name; passed over^
five: $: ~ counts as 5
slash: $: ~ begins with a slash; no call has it
no-end: the answer has no end, an s or an r: its client waits until its deadline"
}

/// The modes, and what they read.
pub fn modes() -> &'static str {
    "replay: replay reads standard input: grpcc replay <
config: config reads standard input: grpcc config <
migrate: migrate reads standard input: grpcc migrate <
serve: serve reads standard input: grpcc serve --port 50051 --links 1 <
load: load reads nothing: grpcc load --seed 1 --calls 1000
live: live reads standard input: grpcc live <
relay: relay reads standard input: grpcc relay --port 50050 --links 1 --seed 1 --nets 2 <"
}

/// The options after the names of their modes: the numbers that they take, and `needed` where the option has to stand.
pub fn options() -> &'static str {
    "serve--port: from 0 to 65535 needed
serve--links: from 1 to 1024 needed
load--seed: from 0 to 18446744073709551615 needed
load--calls: from 1 to 10000 needed
live--seed: from 0 to 18446744073709551615
live--nets: from 1 to 4
live--keepalive: from 1 to 86400000
live--keepalive-timeout: from 1 to 86400000
relay--port: from 0 to 65535 needed
relay--links: from 1 to 1024 needed
relay--seed: from 0 to 18446744073709551615 needed
relay--nets: from 1 to 4 needed"
}

/// The events with their fields, and the lines of live and server scripts by the names of their modes.
pub fn events() -> &'static str {
    "begin: <path> <wait> <timeout> <metadata>
send: <call> <hex>
finish: <call>
take: <call>
cancel: <call>
resolved: <addresses> <config>
unresolved:
dial:
up: <sub>
nodial: <sub>
arrived: <link> <hex>
lost: <link>
drain: <link> <room>
ping: <link> <digits>
tick:
shutdown:"
}

/// The lines of live and server scripts and those of relays, by the names of their modes.
pub fn lines() -> &'static str {
    "live call: <worker> <path> <wait> <timeout> <metadata> <hex>..
live config: <hex>
relay config: <hex>
serve answer: <path> <n> <parts>"
}

/// What the causes of bad lines mean by themselves, in a script of a mode or in any.
pub fn causes() -> &'static str {
    "live4: a worker is a number from 1 to 16, and a timeout is nanoseconds or -, without leading zeros
live5: a line is: config <hex>, in line 2 alone, or call <worker> <path> <wait> <timeout> <metadata> <hex>.., with a wait of yes, no or -
live6: a call has five fields and 0 to 64 messages: call <worker> <path> <wait> <timeout> <metadata> <hex>..; a config has one field
live7: bytes that are not in lower-case hex; an empty message is -
relay5: a line is: config <hex>, in line 2 alone; a script of a relay has no calls
relay6: a config has one field
relay11: a config has 65536 bytes at most
live11: a value above its limit: a message has 4194304 bytes at most, a config 65536, and a timeout is up to 1000000000000000000
serve4: n is one more than the number of the path's earlier lines; the number of an s, r or w is below 2^32
serve5: a line is: answer <path> <n> <parts>, with parts h m<hex> s<code> p<text> r<code> g w<k>; after an s or an r only g stands
serve6: a line has three fields after answer: <path> <n> <parts>
serve7: the bytes of an m are not in lower-case hex
serve11: a message above its limit of 4194304 bytes
1: a script begins with its channel: channel 2 <target>, as channel 2 ipv4:127.0.0.1:50051
2: more than 8400000 bytes, the most that a line has
3: a byte that is not printable ASCII, or no line feed at the end
4: a number that is not spelled as numbers are, or is outside its range
5: no event of that name, a wait that is not yes, no or -, or, in a report, an event after the rows
6: another count of fields than its event takes
7: bytes that are not in lower-case hex
8: a path that is not /service/method
9: metadata that a request does not send
10: an address or a target that is not one
11: a value above its limit: a message has 4194304 bytes at most, a config 65536, a list 64 addresses
12: more than 1048578 lines, the most that a script has"
}

/// The names of statuses, from number 0 on.
pub fn statuses() -> &'static str {
    "OK CANCELLED UNKNOWN INVALID_ARGUMENT DEADLINE_EXCEEDED NOT_FOUND ALREADY_EXISTS PERMISSION_DENIED RESOURCE_EXHAUSTED FAILED_PRECONDITION ABORTED OUT_OF_RANGE UNIMPLEMENTED INTERNAL UNAVAILABLE DATA_LOSS UNAUTHENTICATED"
}

/// The names of reset codes, from number 0 on.
pub fn reset_codes() -> &'static str {
    "NO_ERROR PROTOCOL_ERROR INTERNAL_ERROR FLOW_CONTROL_ERROR SETTINGS_TIMEOUT STREAM_CLOSED FRAME_SIZE_ERROR REFUSED_STREAM CANCEL COMPRESSION_ERROR CONNECT_ERROR ENHANCE_YOUR_CALM INADEQUATE_SECURITY HTTP_1_1_REQUIRED"
}

/// What the fields of a config take, by their paths; `[]` stands for any element of a list.
pub fn config_fields() -> &'static str {
    "loadBalancingConfig: a list of objects, as [{\"round_robin\": {}}]
loadBalancingConfig[]: an object with one field, as {\"round_robin\": {}}
loadBalancingPolicy: a text, as \"round_robin\"
methodConfig: a list of objects
methodConfig[]: an object
methodConfig[].name: a list of objects, as [{\"service\": \"a.B\"}]
methodConfig[].name[]: an object, as {\"service\": \"a.B\"}
methodConfig[].name[].service: a text, as \"a.B\"
methodConfig[].name[].method: a text, as \"Get\", and a service beside it
methodConfig[].waitForReady: true or false
methodConfig[].timeout: a duration, as \"1.5s\"
methodConfig[].maxRequestMessageBytes: a whole number from 0 to 4294967295
methodConfig[].maxResponseMessageBytes: a whole number from 0 to 4294967295
methodConfig[].retryPolicy: an object
methodConfig[].retryPolicy.initialBackoff: a duration above 0, as \"0.1s\"
methodConfig[].retryPolicy.maxBackoff: a duration above 0, as \"0.1s\"
methodConfig[].retryPolicy.maxAttempts: a whole number from 2 on
methodConfig[].retryPolicy.backoffMultiplier: a number from 0.001 to 1000000, as 1.6
methodConfig[].retryPolicy.retryableStatusCodes: a list of one status code at least, as [\"UNAVAILABLE\"]
methodConfig[].retryPolicy.retryableStatusCodes[]: a status code: a whole number from 1 to 16, or a name, as \"UNAVAILABLE\"
methodConfig[].hedgingPolicy: an object
methodConfig[].hedgingPolicy.hedgingDelay: a duration, as \"1.5s\"
methodConfig[].hedgingPolicy.maxAttempts: a whole number from 2 on
methodConfig[].hedgingPolicy.nonFatalStatusCodes: a list of status codes, as [\"UNAVAILABLE\"]
methodConfig[].hedgingPolicy.nonFatalStatusCodes[]: a status code: a whole number from 1 to 16, or a name, as \"UNAVAILABLE\"
retryThrottling: an object
retryThrottling.maxTokens: a whole number from 1 to 1000
retryThrottling.tokenRatio: a number from 0.001 to 1000, as 0.1"
}

/// The policies that are supported.
pub fn policies() -> &'static str {
    "pick_first:\nround_robin:\npriority:"
}

/// The words of the row whose key is this prefix and this rest.
pub fn row(table: &'static str, prefix: &[u8], key: &[u8]) -> Option<&'static [u8]> {
    for line in table.as_bytes().split(|b| *b == b'\n') {
        if let Some(rest) = line.strip_prefix(prefix)
            && let Some(rest) = rest.strip_prefix(key)
            && let Some(words) = rest.strip_prefix(b":")
        {
            return Some(words);
        }
    }
    None
}

/// The rest of the first key with this prefix that is spelled nearly so.
pub fn nearest(table: &'static str, prefix: &[u8], word: &[u8]) -> Option<&'static [u8]> {
    for line in table.as_bytes().split(|b| *b == b'\n') {
        if let Some(rest) = line.strip_prefix(prefix) {
            let (key, _words) = first_piece(rest, b':');
            if is_near(word, key) {
                return Some(key);
            }
        }
    }
    None
}

/// Whether two words differ in two letters at most that stand together, and in the case of letters.
fn is_near(word: &[u8], key: &[u8]) -> bool {
    let mut prefix = 0usize;
    for (a, b) in word.iter().zip(key.iter()) {
        if !a.eq_ignore_ascii_case(b) {
            break;
        }
        prefix = prefix.saturating_add(1);
    }
    let mut back = 0usize;
    for (a, b) in word.iter().rev().zip(key.iter().rev()) {
        if !a.eq_ignore_ascii_case(b) {
            break;
        }
        back = back.saturating_add(1);
    }
    let same = prefix.saturating_add(back);
    same >= 2 && same.saturating_add(2) >= word.len().max(key.len())
}
