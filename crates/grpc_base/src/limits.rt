// The limits of the channel and of its texts, each in one place.
ghost use Rattle.std.specs.Prelude.{◌≡◌};
ghost use Rattle.grpc_base.specs.Limits.{address_limit, config_limit, line_limit, lines_limit, message_limit, meta_limit, path_limit, payload_limit, pushback_limit};
ghost use Rattle.grpc_base.specs.declared.limits.TheConstants.{ADDRESSES, CONFIG_BYTES, LINES, LINE_BYTES, MESSAGE_BYTES, METADATA_BYTES, PATH_BYTES, PAYLOAD_BYTES, PUSHBACK_BYTES};

/// The most addresses of one list.
pub const ADDRESSES: usize = 64;

/// The most bytes of a path.
pub const PATH_BYTES: usize = 1_024;

/// The most bytes that the metadata of one request comes to, as it is sent.
pub const METADATA_BYTES: usize = 14_336;

/// The most bytes of one message, each way.
pub const MESSAGE_BYTES: usize = 4_194_304;

/// The most bytes of a service config.
pub const CONFIG_BYTES: usize = 65_536;

/// The most bytes of a frame's payload that is sent or read.
pub const PAYLOAD_BYTES: usize = 16_384;

/// The most lines of a script.
pub const LINES: u64 = 1_048_578;

/// The most bytes of a line of a script, its end not counted.
pub const LINE_BYTES: usize = 8_400_000;

/// The most bytes of a pushback's text in a server script.
pub const PUSHBACK_BYTES: usize = 1_024;

/// A law for proofs: each constant is the limit of the definitions. The call does nothing.
pub fn limits_are_those_defined()
    ensures addresses { ADDRESSES ≡ address_limit }
    ensures path { PATH_BYTES ≡ path_limit }
    ensures metadata { METADATA_BYTES ≡ meta_limit }
    ensures message { MESSAGE_BYTES ≡ message_limit }
    ensures config { CONFIG_BYTES ≡ config_limit }
    ensures payload { PAYLOAD_BYTES ≡ payload_limit }
    ensures lines { LINES ≡ lines_limit }
    ensures line { LINE_BYTES ≡ line_limit }
    ensures pushback { PUSHBACK_BYTES ≡ pushback_limit }
{}
