// What help says of the program and of each mode, before their usage.

/// Of the program: its modes with an example each, and its statuses.
pub fn of_program() -> &'static str {
    "A gRPC client channel. Modes, each with its own help:
  replay   reads a script, runs it and writes the report
             grpcc replay < examples/one-call.script
  config   reads a service config and writes its reading
             grpcc config < examples/service-config.json
  migrate  reads a script or a report and writes the script of version 2
             grpcc migrate < examples/one-call.report
  serve    reads a server script and serves gRPC calls by it at 127.0.0.1
             grpcc serve --port 50051 --links 1 < examples/hello.server
  load     makes a session from a seed, plays it in memory and sums it up
             grpcc load --seed 1 --calls 1000
  live     reads calls, makes them over TCP and writes the report of the session
             grpcc live < examples/hello.live
  relay    takes gRPC calls at 127.0.0.1, makes them through one channel, and writes its report
             grpcc relay --port 50050 --links 1 --seed 1 --nets 2 < examples/relay.script

Statuses, explained on standard error:
  0  done; the whole output is written
  2  the words are refused: 'fault words'
             grpcc reply
  3  the input is refused: 'fault line <n> cause <c>' or 'fault config <n> <detail>'
             echo channel | grpcc replay
  4  a read failed; nothing is written
             grpcc replay < .
  5  a write failed; the output is cut off
             grpcc --help > /dev/full
  6  out of memory; the output is cut off
  7  the session is full: 1048576 entries or 268435456 bytes
  8  the port cannot be listened at, or a link was not accepted; nothing is written"
}

/// Of `replay`: line 1, the form of a line, the events with their fields, and the causes of bad lines.
pub fn of_replay() -> &'static str {
    "Reads a script, runs the channel on it and writes the report.

Line 1 is: channel 2 <target>
  <target>     ipv4:a.b.c.d:port, with commas between addresses, or dns:host:port
All others:  <moment> <word> <event>
  <moment>     nanoseconds up to 4000000000000000000
  <word>       the seed of the event's random choices, below 2^64

Events:
  begin <path> <wait> <timeout> <metadata>   the application begins a call
  send <call> <hex>                          it sends a message; - is the empty one
  finish <call>                              it has sent its last message
  take <call>                                it asks for the next item of the response
  cancel <call>                              it cancels the call
  resolved <addresses> <config>              the resolver found them; a service config in hex, or -
  unresolved                                 the resolver failed
  dial                                       the environment asks which subchannel to dial
  up <sub>                                   a dial succeeded
  nodial <sub>                               a dial failed
  arrived <link> <hex>                       bytes came on a link
  lost <link>                                a link is closed or broken
  drain <link> <room>                        bytes to send are asked for, up to a room
  ping <link> <digits>                       a ping is to be sent, with 16 digits of hex
  tick                                       time has passed
  shutdown                                   the channel is shut down
with
  <path>       /service/method
  <wait>       for ready: yes, no, or - for what the config says
  <timeout>    nanoseconds up to 1000000000000000000, or -
  <metadata>   name:hex with commas, or -
  <addresses>  a.b.c.d:port with commas, or -

Causes in 'fault line <n> cause <c>':
   1  line 1 is not a channel line
   2  the line has more than 8400000 bytes
   3  a byte is not printable ASCII, or no line feed ends the last line
   4  a number is misspelled or outside its range
   5  no event of that name; or a wait that is not yes, no or -
   6  another count of fields than the event has
   7  bytes are not in lower-case hex
   8  the path is not a path
   9  the metadata is not metadata, or a request does not send it
  10  an address or the target is not one
  11  a message, a config, a timeout or a list of addresses is past its limit
  12  the line is past the 1048578th"
}

/// Of `config`: the columns of the output, and the faults.
pub fn of_config() -> &'static str {
    "Reads a service config (JSON) and writes its reading.

Output, with times in nanoseconds and - for what is absent:
  policy <kind>                 pick_first, round_robin or priority
  throttle <tokens> <ratio>     both in thousandths
  method <service>/<method> <wait> <timeout> <request> <response> <plan>
                                a line a name; * for an empty service or method
  end <names>                   how many names there are
with
  <wait>       for ready: yes or no
  <request>    the most bytes of a message that is sent
  <response>   the most bytes of a message that comes
  <plan>       none
               retry <attempts> <initial> <longest> <multiplier> <codes>
               hedge <attempts> <delay> <codes>
  <codes>      status codes by number, with commas

Faults in 'fault config <n> <detail>':
  1  the text is not JSON that is read: <m>:<offset>, by the first byte, from 0, that shows it
       m 1  syntax
         2  a name stands twice in one object
         3  more than 32 levels
         4  a number with an exponent
         5  more than 65536 bytes
  2  a value has the wrong kind or is out of range, or a field is missing: its path
  3  an entry has both policies: its path
  4  a name of methods stands a second time: its path
  5  no policy that is named is supported"
}

/// Of `migrate`.
pub fn of_migrate() -> &'static str {
    "Reads a script or a report of either version and writes the script of version 2.

Of each line it takes what stands before the first ' = ', and of a report the lines before the
first one that begins with 'row ', 'end ' or 'fault '. For the form of a line, and the causes of
bad lines: grpcc replay --help"
}

/// Of `serve`: what it does, the form of a line and the parts of an answer.
pub fn of_serve() -> &'static str {
    "Reads a server script, listens at a port of 127.0.0.1, says 'listening <port>' on standard error,
and serves so many links, each as soon as it is accepted. It ends with 'served <links>' when each
link has ended.

Lines:  answer <path> <n> <parts>
  <path>   /service/method
  <n>      the answer to the n-th request of the path; the last one is used again and again
  <parts>  with commas, in their order:
             h          a head
             m<hex>     a message
             s<code>    trailers with a status; the whole response where no head came
             p<text>    grpc-retry-pushback-ms of the next status
             r<code>    RST_STREAM
             g          GOAWAY with the last stream seen
             w<k>       a wait until k requests were answered, over all links
A path without an answer gets status 12. An input of no bytes has no answers.

Causes of bad lines are those of scripts: grpcc replay --help"
}

/// Of `load`: what it plays, and the columns of its line.
pub fn of_load() -> &'static str {
    "A simulation: makes a session of so many calls from a seed, plays it in memory against a scripted
server on two links, and sums it up. Nothing is read, no socket is opened, and time is the script's
own. The same seed and calls give the same line. How fast calls are over TCP: grpcc live.

The server refuses on purpose, as the seed draws: it answers a request UNAVAILABLE, resets it with
REFUSED_STREAM, or answers it well. Retries are made for UNAVAILABLE, up to 4 attempts, under
throttling with 100 tokens: each failure takes one, each success gives a tenth of one back, and at
50 or fewer no retry is made. So in long loads most calls that draw UNAVAILABLE fail.

Output:  load <seed> calls <calls> entries <n> rows <n> ok <n> failed <n> open <n> retries <n> transparent <n>
  entries      of the journal: the events of the session
  rows         attempts
  ok           calls whose end was taken and has status 0
  failed       calls whose end was taken and has another status
  open         calls whose end was not taken
  retries      attempts that the retry policy made
  transparent  attempts made again since the server never saw the one before"
}

/// Of `live`: what it does, the lines of a script, and the options.
pub fn of_live() -> &'static str {
    "Reads a live script, makes its calls over TCP, and writes the report of the session: each event
with its reply, cut off at each ' = ' a script that 'grpcc replay' runs to the same report.

Line 1 is: channel 2 <target>       as for grpcc replay --help
Line 2 may be: config <hex>         a service config
All others:  call <worker> <path> <wait> <timeout> <metadata> <message>..
  <worker>     from 1 to 16; the calls of a worker are made one behind another, and all workers
               at once
  <message>    hex, or - for the empty one; 0 to 64 of them

It ends when the calls are made and the channel is shut down. Causes of bad lines are those of
scripts: grpcc replay --help"
}

/// Of `relay`: what it does, the lines of a script, and what becomes of a call.
pub fn of_relay() -> &'static str {
    "Reads a live script without calls, listens at a port of 127.0.0.1, says 'listening <port>' on
standard error, and makes each gRPC call that comes there through one channel, with its retries,
hedges, load balancing and deadlines. It takes so many links, ends when each has ended, shuts the
channel down, and writes the report of the session, as 'grpcc live' does.

Line 1 is: channel 2 <target>       as for grpcc replay --help
Line 2 may be: config <hex>         a service config

A request that is no gRPC call gets status 12, metadata past its limit 8, a timeout that cannot be
read 13, a compressed message 13, a message above 4194304 bytes 8. All other statuses are those of
the channel. A session has room for 1048576 entries, of which a call of one message each way takes
about ten.

Causes of bad lines are those of scripts: grpcc replay --help"
}
