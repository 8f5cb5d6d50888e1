// Fields as the formats' text has them, and texts that are none.
use grpc_base::{Address, AddressList, Metadata, NoMemory, Octets, append_decimal};
use script_fields::{
    FieldFault, address_of, addresses_of, afterwards, append_addresses, append_config, append_hex,
    append_hex_of_word, append_hex_word, append_meta, append_number, append_number_or_dash,
    append_text, append_wait, append_word, bytes_of, bytes_or_dash, config_of, message_of, meta_of,
    number_before, number_within, piece_of, timeout_of, wait_of, word_of_hex,
};
use std::alloc::Global;
use std::test::Fail;

const LOCAL: Address = Address {
    ip: 0x7f00_0001,
    port: 50_051,
};

const OTHER: Address = Address {
    ip: 0x0a00_0002,
    port: 1,
};

#[test]
fn numbers_have_one_spelling(rt: HostRuntime) {
    let rows: [(&str, u64, Option<u64>); 8] = [
        ("0", 0, Some(0)),
        ("16", 16, Some(16)),
        ("17", 16, None),
        ("01", 16, None),
        ("+1", 16, None),
        ("", 16, None),
        ("18446744073709551615", u64::MAX, Some(u64::MAX)),
        ("18446744073709551616", u64::MAX, None),
    ];
    for (text, most, want) in rows {
        assert_eq!(rt; number_within(text.as_bytes(), most), want, "{text}");
    }
    match number_before(b"12 begin", b' ', 12) {
        Some((number, rest)) => {
            assert_eq!(rt; number, 12);
            assert_eq!(rt; rest, b"begin".as_slice());
        }
        None => assert!(rt; false, "a number before a space"),
    }
}

#[test]
fn timeouts_of_any_length_have_the_form(rt: HostRuntime) {
    let rows: [(&str, Result<Option<u64>, FieldFault>); 8] = [
        ("-", Ok(None)),
        ("0", Ok(Some(0))),
        ("1000000000000000000", Ok(Some(1_000_000_000_000_000_000))),
        ("1000000000000000001", Err(FieldFault::Limit)),
        (
            "123456789012345678901234567890123456789012345678901234567890123456789",
            Err(FieldFault::Limit),
        ),
        ("01", Err(FieldFault::Form)),
        ("", Err(FieldFault::Form)),
        ("1s", Err(FieldFault::Form)),
    ];
    for (text, want) in rows {
        assert_eq!(rt; timeout_of(text.as_bytes()), want, "{text}");
    }
}

#[test]
fn words_and_waits_are_read(rt: HostRuntime) {
    let words: [(&str, Option<u64>); 5] = [
        ("0102030405060708", Some(0x0102_0304_0506_0708)),
        ("ffffffffffffffff", Some(u64::MAX)),
        ("000000000000000A", None),
        ("00000000000000a", None),
        ("000000000000000000", None),
    ];
    for (text, want) in words {
        assert_eq!(rt; word_of_hex(text.as_bytes()), want, "{text}");
    }
    let waits: [(&str, Option<Option<bool>>); 4] = [
        ("-", Some(None)),
        ("yes", Some(Some(true))),
        ("no", Some(Some(false))),
        ("Yes", None),
    ];
    for (text, want) in waits {
        assert_eq!(rt; wait_of(text.as_bytes()), want, "{text}");
    }
}

/// Whether a message of at most three bytes is read as these.
fn is_message(alloc: Global, text: &[u8], bytes: &[u8]) -> bool {
    match message_of(alloc, text, 3) {
        Ok(message) => message.as_slice() == bytes,
        Err(_) => false,
    }
}

/// Why a message of at most three bytes is not read.
fn message_fault(alloc: Global, text: &[u8]) -> Option<FieldFault> {
    message_of(alloc, text, 3).err()
}

#[test]
fn messages_are_hex_or_a_dash(rt: HostRuntime) {
    let alloc = rt.alloc();
    assert!(rt; is_message(alloc, b"-", b""), "no bytes");
    assert!(rt; is_message(alloc, b"00ff6a", b"\x00\xffj"), "three bytes");
    let rows: [(&str, FieldFault); 6] = [
        ("00ff6a00", FieldFault::Limit),
        ("00ff6a0", FieldFault::Form),
        ("00ff6a0g", FieldFault::Form),
        ("6A", FieldFault::Form),
        ("", FieldFault::Form),
        ("--", FieldFault::Form),
    ];
    for (text, want) in rows {
        assert_eq!(rt; message_fault(alloc, text.as_bytes()), Some(want), "{text}");
    }
}

#[test]
fn a_message_of_4194304_bytes_is_read_whole(rt: HostRuntime) -> Result<(), Fail> {
    let alloc = rt.alloc();
    let text = vec![in alloc; b'7'; 8_388_608]?;
    let bytes = vec![in alloc; b'w'; 4_194_304]?;
    match message_of(alloc, text.as_slice(), 4_194_304) {
        Ok(message) => assert!(rt; message.as_slice() == bytes.as_slice(), "each byte"),
        Err(_) => assert!(rt; false, "a message of 8,388,608 digits"),
    }
    assert!(rt;
        piece_of(alloc, text.as_slice())?.is_some_and(|piece| piece.as_slice() == bytes.as_slice()),
        "a piece of 8,388,608 digits"
    );
    let mut written = Vec::new(alloc);
    append_hex(alloc, &mut written, bytes.as_slice())?;
    assert!(rt; written.as_slice() == text.as_slice(), "written again");
    Ok(())
}

/// How many bytes a piece has, where it is read.
fn piece_length(alloc: Global, text: &[u8]) -> Result<Option<usize>, NoMemory> {
    Ok(piece_of(alloc, text)?.map(|piece| piece.len()))
}

/// How many bytes a config has: none of them where there is no config, and none at all where it is not read.
fn config_length(alloc: Global, text: &[u8]) -> Option<usize> {
    match config_of(alloc, text) {
        Ok(Some(config)) => Some(config.len()),
        Ok(None) => Some(0),
        Err(_) => None,
    }
}

#[test]
fn pieces_and_configs_have_a_byte(rt: HostRuntime) -> Result<(), Fail> {
    let alloc = rt.alloc();
    assert_eq!(rt; piece_length(alloc, b"00ff")?, Some(2));
    assert_eq!(rt; piece_length(alloc, b"-")?, None);
    assert_eq!(rt; piece_length(alloc, b"")?, None);
    assert_eq!(rt; config_length(alloc, b"7b7d"), Some(2));
    assert_eq!(rt; config_length(alloc, b"-"), Some(0));
    assert_eq!(rt; config_length(alloc, b""), None);
    assert_eq!(rt; config_length(alloc, b"7"), None);
    Ok(())
}

#[test]
fn a_config_has_at_most_65536_bytes(rt: HostRuntime) -> Result<(), Fail> {
    let mut text = Vec::new(rt.alloc());
    for _ in 0..65_536 {
        text.extend_from_slice(b"20")?;
    }
    assert_eq!(rt; config_length(rt.alloc(), text.as_slice()), Some(65_536));
    text.extend_from_slice(b"20")?;
    assert!(rt;
        config_of(rt.alloc(), text.as_slice()).is_err_and(|fault| fault == FieldFault::Limit),
        "one byte more"
    );
    text.extend_from_slice(b"2")?;
    assert!(rt;
        config_of(rt.alloc(), text.as_slice()).is_err_and(|fault| fault == FieldFault::Form),
        "half a byte more"
    );
    Ok(())
}

/// So many different addresses, and then this text.
fn addresses_with(alloc: Global, count: u64, end: &[u8]) -> Result<Vec<u8>, NoMemory> {
    let mut text = Vec::new(alloc);
    for port in 0..count {
        if port > 0 {
            text.push(b',')?;
        }
        text.extend_from_slice(b"10.0.0.2:")?;
        append_decimal(&mut text, port.wrapping_add(1))?;
    }
    text.extend_from_slice(end)?;
    Ok(text)
}

/// How many addresses are read.
fn address_count(text: &[u8]) -> Result<usize, FieldFault> {
    Ok(addresses_of(text)?.len())
}

#[test]
fn addresses_are_64_at_most(rt: HostRuntime) -> Result<(), Fail> {
    let alloc = rt.alloc();
    let single: [(&str, Option<Address>); 4] = [
        ("127.0.0.1:50051", Some(LOCAL)),
        ("127.0.0.1:0", None),
        ("127.0.0.256:1", None),
        ("127.0.0.1", None),
    ];
    for (text, want) in single {
        assert_eq!(rt; address_of(text.as_bytes()), want, "{text}");
    }
    let rows: [(&str, Result<usize, FieldFault>); 5] = [
        ("-", Ok(0)),
        ("127.0.0.1:50051", Ok(1)),
        ("127.0.0.1:1,10.0.0.2:1,127.0.0.1:1", Ok(2)),
        ("127.0.0.1:1,", Err(FieldFault::Form)),
        ("", Err(FieldFault::Form)),
    ];
    for (text, want) in rows {
        assert_eq!(rt; address_count(text.as_bytes()), want, "{text}");
    }
    let many: [(u64, &str, Result<usize, FieldFault>); 4] = [
        (64, "", Ok(64)),
        (65, "", Err(FieldFault::Limit)),
        (64, ",10.0.0.2:1", Err(FieldFault::Limit)),
        (65, ",10.0.0.2", Err(FieldFault::Form)),
    ];
    for (count, end, want) in many {
        let text = addresses_with(alloc, count, end.as_bytes())?;
        assert_eq!(rt; address_count(text.as_slice()), want, "{count} and {end}");
    }
    Ok(())
}

/// The bytes of all names and values, where metadata is read.
fn meta_bytes(alloc: Global, text: &[u8]) -> Result<Option<Vec<u8>>, NoMemory> {
    let Some(meta) = meta_of(alloc, text)? else {
        return Ok(None);
    };
    let mut bytes = Vec::new(alloc);
    for pair in meta.as_slice() {
        bytes.extend_from_slice(pair.name.as_slice())?;
        bytes.push(b'=')?;
        bytes.extend_from_slice(pair.value.as_slice())?;
        bytes.push(b';')?;
    }
    Ok(Some(bytes))
}

#[test]
fn metadata_keeps_the_rules_of_a_request(rt: HostRuntime) -> Result<(), Fail> {
    let alloc = rt.alloc();
    let rows: [(&str, Option<&[u8]>); 12] = [
        ("-", Some(b"")),
        ("a:78,b-bin:,a:", Some(b"a=x;b-bin=;a=;")),
        ("k-bin:00ff", Some(b"k-bin=\x00\xff;")),
        ("", None),
        ("a", None),
        ("a:78,", None),
        ("A:78", None),
        ("a:7A", None),
        ("a:7", None),
        ("a:20", None),
        ("te:78", None),
        ("-,a:78", None),
    ];
    for (text, want) in rows {
        let read = meta_bytes(alloc, text.as_bytes())?;
        assert_eq!(rt; read.as_ref().map(|bytes| bytes.as_slice()), want, "{text}");
    }
    Ok(())
}

/// So many pairs of an empty value, and this text after them.
fn pairs_with(alloc: Global, count: u32, end: &[u8]) -> Result<Vec<u8>, NoMemory> {
    let mut text = Vec::new(alloc);
    for _ in 0..count {
        text.extend_from_slice(b"a:,")?;
    }
    text.extend_from_slice(end)?;
    Ok(text)
}

#[test]
fn metadata_has_at_most_14336_bytes(rt: HostRuntime) -> Result<(), Fail> {
    let alloc = rt.alloc();
    let full = pairs_with(alloc, 433, b"b:6161616161616161616161616161")?;
    let bytes = meta_bytes(alloc, full.as_slice())?.ok_or("434 pairs")?;
    let mut want = Vec::new(alloc);
    for _ in 0..433 {
        want.extend_from_slice(b"a=;")?;
    }
    want.extend_from_slice(b"b=aaaaaaaaaaaaaa;")?;
    assert!(rt;
        bytes.as_slice() == want.as_slice(),
        "434 pairs of 14,336 bytes"
    );
    let more = pairs_with(alloc, 433, b"b:616161616161616161616161616161")?;
    assert!(rt;
        meta_bytes(alloc, more.as_slice())?.is_none(),
        "one byte more"
    );
    Ok(())
}

#[test]
fn the_empty_text_is_bytes_and_no_dash(rt: HostRuntime) -> Result<(), Fail> {
    assert!(rt;
        afterwards(b"up 1", b"up ").is_some_and(|rest| rest == b"1".as_slice()),
        "behind a beginning"
    );
    assert!(rt;
        bytes_of(rt.alloc(), b"")?.is_some_and(|bytes| bytes.is_empty()),
        "no digits"
    );
    assert!(rt;
        bytes_or_dash(rt.alloc(), b"")?.is_none(),
        "neither a dash nor digits"
    );
    Ok(())
}

const LINE: &[u8] =
    b" up 7 18446744073709551615 - - 00ff - a%20%25~%7F %2D yes - no 10.0.0.2:1 127.0.0.1:50051,10.0.0.2:1 - a:78,b-bin: 7b7d - 0000000000000102ab";

#[test]
fn each_field_is_written(rt: HostRuntime) -> Result<(), Fail> {
    let alloc = rt.alloc();
    let mut list = AddressList::new();
    assert!(rt;
        list.push(LOCAL).is_ok() && list.push(OTHER).is_ok(),
        "two addresses"
    );
    let mut meta = Metadata::new(alloc);
    assert!(rt;
        meta.push(b"a", b"x").is_ok() && meta.push(b"b-bin", b"").is_ok(),
        "two pairs"
    );
    let mut line = Vec::new(alloc);
    append_word(&mut line, b"up")?;
    append_number(&mut line, 7)?;
    append_number_or_dash(&mut line, Some(u64::MAX))?;
    append_number_or_dash(&mut line, None)?;
    append_hex_word(alloc, &mut line, b"")?;
    append_hex_word(alloc, &mut line, b"\x00\xff")?;
    append_text(alloc, &mut line, b"")?;
    append_text(alloc, &mut line, b"a %~\x7f")?;
    append_text(alloc, &mut line, b"-")?;
    append_wait(&mut line, Some(true))?;
    append_wait(&mut line, None)?;
    append_wait(&mut line, Some(false))?;
    append_word(&mut line, b"")?;
    OTHER.append_to(&mut line)?;
    append_addresses(&mut line, list.as_slice())?;
    append_addresses(&mut line, &[])?;
    append_meta(alloc, &mut line, meta.as_slice())?;
    append_config(alloc, &mut line, &Some(Octets::of_static(b"{}")))?;
    append_config(alloc, &mut line, &None)?;
    append_word(&mut line, b"")?;
    append_hex_of_word(alloc, &mut line, 258)?;
    append_hex(alloc, &mut line, b"\xab")?;
    assert_eq!(rt; line.as_slice(), LINE);
    Ok(())
}
