// What is read of JSON texts and of both kinds of decimal.
use grpc_base::JsonFault;
use json_text::{Json, milli, nanos, read_json};
use std::alloc::Global;
use std::test::Fail;

/// The number of the fault and its place, and 0 for none.
fn reports_that(alloc: Global, text: &[u8]) -> (u64, u64) {
    match read_json(alloc, text) {
        Ok(_) => (0, 0),
        Err(JsonFault::Syntax { at }) => (1, at),
        Err(JsonFault::RepeatedKey { at }) => (2, at),
        Err(JsonFault::TooDeep { at }) => (3, at),
        Err(JsonFault::Number { at }) => (4, at),
        Err(JsonFault::TooLong) => (5, 65536),
        Err(JsonFault::NoMemory) => (6, 0),
    }
}

/// The value that a text spells.
fn read(alloc: Global, text: &[u8]) -> Result<Json, Fail> {
    match read_json(alloc, text) {
        Ok(value) => Ok(value),
        Err(_) => Err("a fault".into()),
    }
}

/// Each accessor, of each kind of value.
#[test]
fn takes_values_apart(rt: HostRuntime) -> Result<(), Fail> {
    let text = b"{\"a\":[null,true,-0.50,\"x\",{\"b\":[]},false]}";
    let value = read(rt.alloc(), text)?;
    let values = value.member(b"a").and_then(Json::as_list).ok_or("a list")?;
    let kinds: [(
        Option<bool>,
        Option<&[u8]>,
        Option<&[u8]>,
        Option<usize>,
        Option<usize>,
    ); 6] = [
        (None, None, None, None, None),
        (Some(true), None, None, None, None),
        (None, Some(b"-0.50"), None, None, None),
        (None, None, Some(b"x"), None, None),
        (None, None, None, None, Some(1)),
        (Some(false), None, None, None, None),
    ];
    assert_eq!(rt; values.len(), kinds.len());
    for (value, kind) in values.iter().zip(kinds) {
        assert_eq!(rt; value.as_bool(), kind.0, "{kind:?}");
        assert_eq!(rt; value.as_number(), kind.1, "{kind:?}");
        assert_eq!(rt; value.as_str(), kind.2, "{kind:?}");
        assert_eq!(rt; value.as_list().map(<[Json]>::len), kind.3, "{kind:?}");
        assert_eq!(rt;
            value.as_object().map(|members| members.len()),
            kind.4,
            "{kind:?}"
        );
    }
    assert!(rt; value.member(b"b").is_none() && values[3].member(b"x").is_none());
    Ok(())
}

/// As many numbers as a text has room for.
#[test]
fn reads_the_longest_list(rt: HostRuntime) -> Result<(), Fail> {
    let mut text = b"{\"a\":[0".to_vec(rt.alloc())?;
    for _ in 1..32764 {
        text.extend_from_slice(b",7")?;
    }
    text.extend_from_slice(b"]} ")?;
    assert_eq!(rt; text.len(), 65536);
    let value = read(rt.alloc(), &text)?;
    let values = value.member(b"a").and_then(Json::as_list).ok_or("a list")?;
    assert_eq!(rt; values.len(), 32764);
    for (at, value) in values.iter().enumerate() {
        let want: &[u8] = if at == 0 { b"0" } else { b"7" };
        assert_eq!(rt; value.as_number(), Some(want), "at {at}");
    }
    Ok(())
}

/// 32 levels are read whole, and the bracket that opens one more is reported.
#[test]
fn reads_the_deepest_text(rt: HostRuntime) -> Result<(), Fail> {
    let mut text = b"{\"a\":".to_vec(rt.alloc())?;
    text.resize(36, b'[')?;
    text.resize(67, b']')?;
    text.push(b'}')?;
    let value = read(rt.alloc(), &text)?;
    let mut level = value.member(b"a").ok_or("a member")?;
    for at in 2..32 {
        let [inner] = level.as_list().ok_or("a list")? else {
            return Err(format!(in rt.alloc(); "not one value at level {at}")?.into());
        };
        level = inner;
    }
    assert_eq!(rt; level.as_list().map(<[Json]>::len), Some(0));
    text.truncate(36);
    assert_eq!(rt; reports_that(rt.alloc(), &text), (1, 36));
    text.push(b'{')?;
    assert_eq!(rt; reports_that(rt.alloc(), &text), (3, 36));
    Ok(())
}

/// 7,281 names in one object, the greatest first; one of them once more is reported.
#[test]
fn reads_the_most_names(rt: HostRuntime) -> Result<(), Fail> {
    let alloc = rt.alloc();
    let mut text = b"{".to_vec(alloc)?;
    for name in (1721..9001u64).rev() {
        text.extend_from_slice(format!(in alloc; "\"{name}\":{},", name % 10)?.as_bytes())?;
    }
    let prefix = text.len();
    text.extend_from_slice(b"\"\":0}")?;
    text.resize(65536, b' ')?;
    let value = read(alloc, &text)?;
    let members = value.as_object().ok_or("an object")?;
    assert_eq!(rt; members.len(), 7281);
    for (want, (name, number)) in (1721..9001u64).rev().zip(members) {
        let digit = format!(in alloc; "{}", want % 10)?;
        let want = format!(in alloc; "{want}")?;
        assert_eq!(rt; name.as_slice(), want.as_bytes());
        assert_eq!(rt; number.as_number(), Some(digit.as_bytes()), "{want}");
    }
    text.truncate(prefix);
    text.extend_from_slice(b"\"5000\"")?;
    assert_eq!(rt; reports_that(alloc, &text), (2, prefix as u64));
    Ok(())
}

#[test]
fn reads_decimals(rt: HostRuntime) {
    for (number, want) in [
        (b"2".as_slice(), Some(2000u64)),
        (b"0.5466", Some(546)),
        (b"0.0009", None),
        (b"1000000.000", Some(1_000_000_000)),
        (b"1000000.0004", None),
        (b"1.9999", Some(1999)),
        (b"01", None),
        (b"1.", None),
        (b".5", None),
        (b"-1", None),
        (b"1e2", None),
        (b"0", None),
    ] {
        assert_eq!(rt; milli(number), want, "{number:?}");
    }
    for (text, want) in [
        (b"1.5s".as_slice(), Some(1_500_000_000u64)),
        (b"0s", Some(0)),
        (b"01s", Some(1_000_000_000)),
        (b"0.000000001s", Some(1)),
        (b"0.0000000001s", None),
        (b"1000000000.000000000s", Some(1_000_000_000_000_000_000)),
        (b"1000000000.000000001s", None),
        (b"1.s", None),
        (b".5s", None),
        (b"1", None),
        (b"s", None),
        (b"-1s", None),
    ] {
        assert_eq!(rt; nanos(text), want, "{text:?}");
    }
}
