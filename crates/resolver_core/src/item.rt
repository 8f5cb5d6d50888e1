// One address of a target.
ghost use Rattle.std.specs.Prelude.{◌≡◌, ◌≤◌, IfSome};
ghost use Rattle.std.specs.Option.{ForSome};
ghost use Rattle.resolver_core.specs.Targets.{address_of, begins_plain, ip_of, joined_ip, number_within, port_of, with_port};

use grpc_base::{Address, first_piece, read_number};

/// The port of an address that names none.
pub const DEFAULT_PORT: u16 = 443;

/// The address of a text `a.b.c.d` or `a.b.c.d:port`.
pub fn read_address(text: &[u8]) -> Option<Address>
    ensures { result ≡ address_of text.now }
{
    let (host, rest) = first_piece(text, b':');
    let Some(rest) = rest else {
        return joined_address(read_ip(host), Some(DEFAULT_PORT));
    };
    let (port, rest) = first_piece(rest, b':');
    let None = rest else {
        return None;
    };
    joined_address(read_ip(host), read_port(port))
}

/// The address of both parts.
fn joined_address(ip: Option<u32>, port: Option<u16>) -> Option<Address>
    ensures { result ≡ with_port ip port }
{
    let ip = ip?;
    let port = port?;
    Some(Address { ip, port })
}

/// The number of a text `a.b.c.d`.
fn read_ip(text: &[u8]) -> Option<u32>
    ensures { result ≡ ip_of text.now }
{
    let (first, rest) = first_piece(text, b'.');
    let Some(rest) = rest else {
        return None;
    };
    let (second, rest) = first_piece(rest, b'.');
    let Some(rest) = rest else {
        return None;
    };
    let (third, rest) = first_piece(rest, b'.');
    let Some(rest) = rest else {
        return None;
    };
    let (fourth, rest) = first_piece(rest, b'.');
    let None = rest else {
        return None;
    };
    joined_parts(
        read_plain(first, 255),
        read_plain(second, 255),
        read_plain(third, 255),
        read_plain(fourth, 255),
    )
}

/// The number of four parts.
fn joined_parts(
    first: Option<u32>,
    second: Option<u32>,
    third: Option<u32>,
    fourth: Option<u32>,
) -> Option<u32>
    requires first_within { ForSome first (λ n. n ≤ 255) }
    requires second_within { ForSome second (λ n. n ≤ 255) }
    requires third_within { ForSome third (λ n. n ≤ 255) }
    requires fourth_within { ForSome fourth (λ n. n ≤ 255) }
    ensures { result ≡ joined_ip first second third fourth }
{
    let first = first?;
    let second = second?;
    let third = third?;
    let fourth = fourth?;
    Some(((first * 256 + second) * 256 + third) * 256 + fourth)
}

/// A port from 1 to 65,535.
pub fn read_port(text: &[u8]) -> Option<u16>
    ensures value { result ≡ port_of text.now }
    ensures not_zero { IfSome result (λ p. 1 ≤ p) }
{
    let port = read_plain(text, 65535)?;
    if port == 0 {
        return None;
    }
    Some(port as u16)
}

/// The number that this text writes in decimal, without a leading zero, if it is at most `most`.
fn read_plain(text: &[u8], most: u32) -> Option<u32>
    requires { most ≤ 65535 }
    ensures value { result ≡ number_within most text.now }
    ensures within { IfSome result (λ n. n ≤ most) }
{
    if !begins_plain(text) {
        return None;
    }
    let number = read_number(text)?;
    if number > most as u64 {
        return None;
    }
    Some(number as u32)
}

/// Whether a text has no zero before other digits.
fn begins_plain(text: &[u8]) -> bool
    ensures { result ≡ begins_plain text.now }
{
    match text {
        [b'0', _second, ..] => false,
        _ => true,
    }
}
