// The fields of a line, each read by its kind.
ghost use Rattle.std.specs.Prelude.{◌≡◌, IfOk, IfErr, IfSome, IfNone};
ghost use Rattle.grpc_base.specs.Limits.{moment_limit};
ghost use Rattle.grpc_base.specs.Requests.{IsPath};
ghost use Rattle.script_lines.specs.Answers.{IsNoNumber};
ghost use Rattle.script_lines.specs.Fields.{AreAddresses, IsConfig, IsConfigOrDash, IsFieldFault, IsMessage, IsMeta, IsNumber, IsPiece, IsPing, IsTimeout, IsWait, IsWorker, addresses_field, config_field, config_or_dash_field, line_fault, message_field, meta_field, moment_field, number_field, number_limit, path_field, piece_field, ping_field, timeout_field, wait_field, word_field, word_limit, worker_field};
ghost use Rattle.script_lines.specs.Lines.{IsReportedBy};

use crate::cause::{
    BAD_ADDRESS, BAD_HEX, BAD_METADATA, BAD_NUMBER, BAD_PATH, LineFault, PAST_LIMIT, UNKNOWN_KIND,
    bad,
};
use grpc_base::limits::{CONFIG_BYTES, MESSAGE_BYTES};
use grpc_base::{AddressList, Metadata, Moment, Octets, Text, is_path};
use script_fields::{
    FieldFault, addresses_of, config_of, message_of, meta_of, number_within, piece_of, timeout_of,
    wait_of, word_of_hex,
};
use std::alloc::Global;

/// A moment of a script.
pub fn moment_of(text: &[u8]) -> Result<Moment, LineFault>
    ensures ok { IfOk result (λ m. IsNumber moment_limit m text.now) }
    ensures bad { IfErr result (IsReportedBy (IsFieldFault moment_field text.now)) }
{
    let Some(nanos) = number_within(text, Moment::LIMIT) else {
        return Err(bad(BAD_NUMBER));
    };
    match Moment::new(nanos) {
        Some(moment) => Ok(moment),
        None => Err(bad(BAD_NUMBER)),
    }
}

/// A random word of a script.
pub fn word_of(text: &[u8]) -> Result<u64, LineFault>
    ensures ok { IfOk result (λ n. IsNumber word_limit n text.now) }
    ensures bad { IfErr result (IsReportedBy (IsFieldFault word_field text.now)) }
{
    match number_within(text, u64::MAX) {
        Some(word) => Ok(word),
        None => Err(bad(BAD_NUMBER)),
    }
}

/// The number of at most 32 bits whose one spelling this is.
pub fn read_u32(text: &[u8]) -> Option<u32>
    ensures some { IfSome result (λ n. IsNumber number_limit n text.now) }
    ensures none { IfNone result (IsNoNumber text.now) }
{
    let number = number_within(text, u32::MAX as u64)?;
    Some(number as u32)
}

/// The number of a call, a subchannel, a link or a room.
pub fn number_of(text: &[u8]) -> Result<u32, LineFault>
    ensures ok { IfOk result (λ n. IsNumber number_limit n text.now) }
    ensures bad { IfErr result (IsReportedBy (IsFieldFault number_field text.now)) }
{
    match read_u32(text) {
        Some(number) => Ok(number),
        None => Err(bad(BAD_NUMBER)),
    }
}

/// The number of a worker, from 1 to 16.
pub fn worker_of(text: &[u8]) -> Result<u32, LineFault>
    ensures ok { IfOk result (λ n. IsWorker n text.now) }
    ensures bad { IfErr result (IsReportedBy (IsFieldFault worker_field text.now)) }
{
    let Some(worker) = number_within(text, 16) else {
        return Err(bad(BAD_NUMBER));
    };
    if worker == 0 {
        return Err(bad(BAD_NUMBER));
    }
    Ok(worker as u32)
}

/// The path of a request.
pub fn path_field_of(alloc: Global, text: &[u8]) -> Result<Text, LineFault>
    ensures ok { IfOk result (λ path. IsPath text.now × (path ≡ text.now)) }
    ensures bad { IfErr result (IsReportedBy (IsFieldFault path_field text.now)) }
{
    if !is_path(text) {
        return Err(bad(BAD_PATH));
    }
    let path = Text::of_slice(alloc, text)?;
    Ok(path)
}

/// Whether a call waits for ready.
pub fn wait_field_of(text: &[u8]) -> Result<Option<bool>, LineFault>
    ensures ok { IfOk result (λ wait. IsWait wait text.now) }
    ensures bad { IfErr result (IsReportedBy (IsFieldFault wait_field text.now)) }
{
    match wait_of(text) {
        Some(wait) => Ok(wait),
        None => Err(bad(UNKNOWN_KIND)),
    }
}

/// The timeout of a call in nanoseconds.
pub fn timeout_field_of(text: &[u8]) -> Result<Option<u64>, LineFault>
    ensures ok { IfOk result (λ timeout. IsTimeout timeout text.now) }
    ensures bad { IfErr result (IsReportedBy (IsFieldFault timeout_field text.now)) }
{
    match timeout_of(text) {
        Ok(timeout) => Ok(timeout),
        Err(fault) => Err(fault_of(BAD_NUMBER, fault)),
    }
}

/// The metadata of a request.
pub fn meta_field_of(alloc: Global, text: &[u8]) -> Result<Metadata, LineFault>
    ensures ok { IfOk result (λ pairs. IsMeta pairs text.now) }
    ensures bad { IfErr result (IsReportedBy (IsFieldFault meta_field text.now)) }
{
    match meta_of(alloc, text)? {
        Some(pairs) => Ok(pairs),
        None => Err(bad(BAD_METADATA)),
    }
}

/// The bytes of a message.
pub fn message_field_of(alloc: Global, text: &[u8]) -> Result<Octets, LineFault>
    ensures ok { IfOk result (λ message. IsMessage message text.now) }
    ensures bad { IfErr result (IsReportedBy (IsFieldFault message_field text.now)) }
{
    match message_of(alloc, text, MESSAGE_BYTES) {
        Ok(message) => Ok(message),
        Err(fault) => Err(fault_of(BAD_HEX, fault)),
    }
}

/// Bytes that arrived on a link.
pub fn piece_field_of(alloc: Global, text: &[u8]) -> Result<Octets, LineFault>
    ensures ok { IfOk result (λ piece. IsPiece piece text.now) }
    ensures bad { IfErr result (IsReportedBy (IsFieldFault piece_field text.now)) }
{
    match piece_of(alloc, text)? {
        Some(piece) => Ok(piece),
        None => Err(bad(BAD_HEX)),
    }
}

/// The word of a ping.
pub fn ping_field_of(text: &[u8]) -> Result<u64, LineFault>
    ensures ok { IfOk result (λ word. IsPing word text.now) }
    ensures bad { IfErr result (IsReportedBy (IsFieldFault ping_field text.now)) }
{
    match word_of_hex(text) {
        Some(word) => Ok(word),
        None => Err(bad(BAD_HEX)),
    }
}

/// The addresses of a resolution.
pub fn addresses_field_of(text: &[u8]) -> Result<AddressList, LineFault>
    ensures ok { IfOk result (λ addresses. AreAddresses addresses text.now) }
    ensures bad { IfErr result (IsReportedBy (IsFieldFault addresses_field text.now)) }
{
    match addresses_of(text) {
        Ok(addresses) => Ok(addresses),
        Err(fault) => Err(fault_of(BAD_ADDRESS, fault)),
    }
}

/// The service config of a resolution.
pub fn config_field_of(alloc: Global, text: &[u8]) -> Result<Option<Octets>, LineFault>
    ensures ok { IfOk result (λ config. IsConfigOrDash config text.now) }
    ensures bad { IfErr result (IsReportedBy (IsFieldFault config_or_dash_field text.now)) }
{
    match config_of(alloc, text) {
        Ok(config) => Ok(config),
        Err(fault) => Err(fault_of(BAD_HEX, fault)),
    }
}

/// The service config of a live script.
pub fn script_config_of(alloc: Global, text: &[u8]) -> Result<Octets, LineFault>
    ensures ok { IfOk result (λ config. IsConfig config text.now) }
    ensures bad { IfErr result (IsReportedBy (IsFieldFault config_field text.now)) }
{
    let Some(config) = piece_of(alloc, text)? else {
        return Err(bad(BAD_HEX));
    };
    if config.len() > CONFIG_BYTES {
        return Err(bad(PAST_LIMIT));
    }
    Ok(config)
}

/// The fault of a field, where another form has this cause.
fn fault_of(cause: u8, fault: FieldFault) -> LineFault
    ensures { result ≡ line_fault cause fault }
{
    match fault {
        FieldFault::Form => bad(cause),
        FieldFault::Limit => bad(PAST_LIMIT),
        FieldFault::NoMemory => LineFault::NoMemory,
    }
}
