// What holds of every text of frames; nothing runs.
ghost use Rattle.std.specs.Prelude.{◌≡◌, ◌≢◌, ◌≤◌, ◌<◌, ◌^◌, ◌↔◌, ◌++◌, ℕ, Bool, List, Option, IsTrue, length, take};
ghost use Rattle.std.specs.List.{AllByRecursion};
ghost use Rattle.h2_frame.specs.declared.payload.Setting.{Setting};
ghost use Rattle.h2_frame.specs.declared.kinds.TheConstants as kinds;
ghost use Rattle.h2_frame.specs.declared.flags.TheConstants as flags;
ghost use Rattle.h2_frame.specs.declared.rules.TheConstants.{PAYLOAD_LIMIT};
ghost use Rattle.h2_frame.specs.Frames.{FrameSeen, IsFrame, is_allowed, payload_limit, written};
ghost use Rattle.h2_frame.specs.Numbers.{data_type, headers_type, priority_type, rst_stream_type, settings_type, push_promise_type, ping_type, goaway_type, window_update_type, continuation_type, end_stream_flag, ack_flag, end_headers_flag, padded_flag, priority_flag};
ghost use Rattle.h2_frame.specs.Payloads.{bytes_64, ping_word};
ghost use Rattle.h2_frame.specs.Sent.{data_frame, headers_frame, ping_ack, ping_frame, rst_stream_frame, settings_ack, settings_frame, window_update_frame};
ghost use Rattle.h2_frame.specs.Readings.{Whole, Partial, Fault, IsProperPrefix, IsFault, IsReading, reading_of, frames_of, rest_of, fault_of};

/// The table, byte by byte, says what the grammar says of whole frames.
pub fn table_is_grammar()
    ensures whole { (bytes : List ℕ) (f : FrameSeen) (len : ℕ) →
        (reading_of bytes ≡ Whole f len) ↔ ((len ≤ length bytes) × IsFrame (take len bytes) f) }
    ensures partial { (bytes : List ℕ) → (reading_of bytes ≡ Partial) ↔ IsProperPrefix bytes }
    ensures fault { (bytes : List ℕ) (code : ℕ) → (reading_of bytes ≡ Fault code) ↔ IsFault bytes code }
{}

/// What is written for a frame is that frame, and is read again as it, whatever follows.
pub fn written_is_read_again()
    ensures frame { (f : FrameSeen) → f.stream < 2 ^ 31 → IsTrue (is_allowed f) → IsFrame (written f) f }
    ensures again { (f : FrameSeen) (more : List ℕ) → f.stream < 2 ^ 31 → IsTrue (is_allowed f) →
        reading_of (written f ++ more) ≡ Whole f (length (written f)) }
{}

/// Each text has one reading: its frames, its rest, and the fault of the rest where it is no proper prefix.
pub fn one_reading()
    ensures exists { (bytes : List ℕ) → IsReading bytes (frames_of bytes) (rest_of bytes) (fault_of (rest_of bytes)) }
    ensures one { (bytes : List ℕ) (frames others : List FrameSeen) (rest end : List ℕ) (fault other : Option ℕ) →
        IsReading bytes frames rest fault → IsReading bytes others end other →
        (frames ≡ others) × (rest ≡ end) × (fault ≡ other) }
{}

/// The frames of a text do not depend on how it is cut, and a fault stays whatever comes.
pub fn pieces_join()
    ensures go_on { (prefix piece : List ℕ) (frames others : List FrameSeen) (rest end : List ℕ) (fault : Option ℕ) →
        IsReading prefix frames rest None → IsReading (rest ++ piece) others end fault →
        IsReading (prefix ++ piece) (frames ++ others) end fault }
    ensures stay { (prefix piece : List ℕ) (frames : List FrameSeen) (rest : List ℕ) (code : ℕ) →
        IsReading prefix frames rest (Some code) → IsReading (prefix ++ piece) frames (rest ++ piece) (Some code) }
{}

/// The word of a PING is its eight bytes, which are written back for it.
pub fn words_are_written_back()
    ensures { (payload : List ℕ) → length payload ≡ 8 → AllByRecursion (λ b. b < 256) payload → bytes_64 (ping_word payload) ≡ payload }
{}

/// What a client sends is a frame of the grammar each time: of a stream that is not 0, at most 16,384 bytes of
/// payload, and an increment that is not 0 on the connection.
pub fn sent_frames_are_frames()
    ensures data { (stream : ℕ) (content : List ℕ) (ends : Bool) → stream ≢ 0 → length content ≤ 16384 → IsTrue (is_allowed (data_frame stream content ends)) }
    ensures headers { (stream : ℕ) (block : List ℕ) → stream ≢ 0 → length block ≤ 16384 → IsTrue (is_allowed (headers_frame stream block)) }
    ensures rst_stream { (stream code : ℕ) → stream ≢ 0 → IsTrue (is_allowed (rst_stream_frame stream code)) }
    ensures settings { (settings : List Setting) → length settings ≤ 2730 → IsTrue (is_allowed (settings_frame settings)) }
    ensures settings_ack { IsTrue (is_allowed settings_ack) }
    ensures ping { (word : ℕ) → IsTrue (is_allowed (ping_frame word)) }
    ensures ping_ack { (word : ℕ) → IsTrue (is_allowed (ping_ack word)) }
    ensures window_update { (stream by : ℕ) → 0 < by → by < 2 ^ 31 → IsTrue (is_allowed (window_update_frame stream by)) }
{}

/// The constants of `kinds` and `flags` are the numbers that RFC 9113 gives them (section 6), and the limit is that of
/// section 6.5.2.
pub fn numbers_are_the_standards()
    ensures data { kinds.DATA ≡ data_type }
    ensures headers { kinds.HEADERS ≡ headers_type }
    ensures priority { kinds.PRIORITY ≡ priority_type }
    ensures rst_stream { kinds.RST_STREAM ≡ rst_stream_type }
    ensures settings { kinds.SETTINGS ≡ settings_type }
    ensures push_promise { kinds.PUSH_PROMISE ≡ push_promise_type }
    ensures ping { kinds.PING ≡ ping_type }
    ensures goaway { kinds.GOAWAY ≡ goaway_type }
    ensures window_update { kinds.WINDOW_UPDATE ≡ window_update_type }
    ensures continuation { kinds.CONTINUATION ≡ continuation_type }
    ensures end_stream { flags.END_STREAM ≡ end_stream_flag }
    ensures ack { flags.ACK ≡ ack_flag }
    ensures end_headers { flags.END_HEADERS ≡ end_headers_flag }
    ensures padded { flags.PADDED ≡ padded_flag }
    ensures with_priority { flags.PRIORITY ≡ priority_flag }
    ensures limit { PAYLOAD_LIMIT ≡ payload_limit }
{}
