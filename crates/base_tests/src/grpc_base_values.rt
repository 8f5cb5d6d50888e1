// The plain data once each, with values from the public documents, and at the greatest input.
use grpc_base::{
    Address, AddressList, Code, CodeSet, ConfigFault, Conn, Duration, Entry, Event, Items,
    JsonFault, Kind, KindSet, ListFull, MessageLimit, MetaFault, Metadata, Moment, NoMemory,
    Octets, Refusal, Reply, Request, Text, first_piece, is_path, split_at_byte,
};
use std::alloc::Global;
use std::test::Fail;

#[test]
fn lists_hold_what_was_put_in(rt: HostRuntime) -> Result<(), Fail> {
    let mut items: Items<u64> = Items::new(rt.alloc());
    assert!(rt; items.is_empty());
    items.reserve(2)?;
    items.push(1)?;
    items.push(2)?;
    items.put(0, 3);
    assert_eq!(rt; items.as_slice(), [3, 2].as_slice());
    assert_eq!(rt; items.get(1), Some(&2));
    assert_eq!(rt; items.pop(), Some(2));
    let mut again = Items::of_vec(items.into_vec());
    assert_eq!(rt; again.len(), 1);
    again.truncate(0);
    assert_eq!(rt; again.pop(), None);
    Ok(())
}

#[test]
fn bytes_are_shared_and_parted(rt: HostRuntime) -> Result<(), Fail> {
    let octets = Octets::of_slice(rt.alloc(), b"hello")?;
    let mut part = octets.part(1, 4)?;
    part.advance(1);
    assert_eq!(rt; part.as_slice(), b"ll".as_slice());
    assert!(rt; octets.share()? == octets);
    assert_eq!(rt; Octets::of_static(b"ab").len(), 2);
    assert!(rt; Octets::new().is_empty());
    let bytes = Vec::from_slice(rt.alloc(), b"abc")?;
    assert_eq!(rt; Octets::of_vec(bytes)?.as_slice(), b"abc".as_slice());
    Ok(())
}

#[test]
fn a_text_takes_a_mebibyte(rt: HostRuntime) -> Result<(), Fail> {
    let page = [b'x'; 4096];
    let mut text = Text::new(rt.alloc());
    for _ in 0..256u32 {
        text.append(&page)?;
    }
    let mut twice = text.copy()?;
    twice.append(text.as_slice())?;
    twice.push(b'y')?;
    assert_eq!(rt; text.len(), 1_048_576);
    assert_eq!(rt; twice.len(), 2_097_153);
    assert!(rt; twice.as_slice().starts_with(text.as_slice()));
    assert!(rt; twice.as_slice().ends_with(b"xy"));
    assert!(rt; Text::of_slice(rt.alloc(), text.as_slice())? == text);
    assert!(rt; Text::of_vec(text.into_vec()) != twice);
    Ok(())
}

#[test]
fn an_address_list_takes_64_and_no_repeat(rt: HostRuntime) {
    let mut list = AddressList::new();
    assert!(rt; list.is_empty());
    for port in 1..65u16 {
        let address = Address {
            ip: 0x7f00_0001,
            port,
        };
        assert_eq!(rt; list.push(address), Ok(()));
        assert_eq!(rt; list.push(address), Ok(()));
    }
    assert_eq!(rt; list.len(), 64);
    assert_eq!(rt; list.push(Address { ip: 1, port: 1 }), Err(ListFull));
    let ninth = Address {
        ip: 0x7f00_0001,
        port: 9,
    };
    assert_eq!(rt; list.push(ninth), Ok(()));
    assert!(rt; list.has(ninth));
    assert_eq!(rt; list.as_slice()[8], ninth);
    assert_eq!(rt; list.len(), 64);
}

#[test]
fn texts_are_parted_at_a_byte(rt: HostRuntime) {
    assert!(rt; split_at_byte(b"a=b=c", b'=') == Some((b"a".as_slice(), b"b=c".as_slice())));
    assert!(rt; split_at_byte(b"abc", b'=').is_none());
    assert!(rt; first_piece(b"a,,b", b',') == (b"a".as_slice(), Some(b",b".as_slice())));
    assert!(rt; first_piece(b"ab", b',') == (b"ab".as_slice(), None));
}

/// A path of so many bytes.
fn long_path(alloc: Global, bytes: usize) -> Result<Text, NoMemory> {
    let mut path = Text::of_slice(alloc, b"/a/")?;
    for _ in 3..bytes {
        path.push(b'b')?;
    }
    Ok(path)
}

#[test]
fn a_request_is_copied_whole(rt: HostRuntime) -> Result<(), Fail> {
    assert!(rt; !is_path(long_path(rt.alloc(), 1025)?.as_slice()));
    let mut meta = Metadata::new(rt.alloc());
    meta.push(b"k", b"v")?;
    let made = Request::new(long_path(rt.alloc(), 1024)?, meta, Some(true), Some(5));
    let Ok(request) = made else {
        assert!(rt; false);
        return Ok(());
    };
    let copy = request.copy()?;
    assert!(rt; copy.path() == request.path());
    assert!(rt; copy.meta().as_slice() == request.meta().as_slice());
    assert_eq!(rt; copy.wait(), Some(true));
    assert_eq!(rt; copy.timeout(), Some(5));
    Ok(())
}

#[test]
fn numbers_keep_their_ranges(rt: HostRuntime) {
    assert_eq!(rt;
        Moment::new(4_000_000_000_000_000_000).map(|m| m.nanos()),
        Some(4_000_000_000_000_000_000)
    );
    assert!(rt; Moment::new(4_000_000_000_000_000_001).is_none());
    assert_eq!(rt; Duration::new(7).map(|d| d.nanos()), Some(7));
    assert!(rt; Duration::new(1_000_000_000_000_000_001).is_none());
    assert_eq!(rt;
        MessageLimit::new(4_194_304).map(|l| l.bytes()),
        Some(4_194_304)
    );
    assert!(rt; MessageLimit::new(4_194_305).is_none());
    assert_eq!(rt; Code::new(14), Some(Code::Unavailable));
    assert_eq!(rt; Code::new(17), None);
    assert_eq!(rt; Conn::Failure.number(), 3);
    assert_eq!(rt; Refusal::RoomTooSmall.number(), 8);
}

#[test]
fn codes_and_kinds_form_sets(rt: HostRuntime) {
    let mut codes = CodeSet::new();
    codes.add(Code::Unavailable);
    assert!(rt; codes.has(Code::Unavailable));
    assert!(rt; !codes.has(Code::Ok));
    let mut kinds = KindSet::new();
    kinds.add(Kind::RoundRobin);
    assert!(rt; kinds.has(Kind::RoundRobin));
    assert!(rt; !kinds.has(Kind::PickFirst));
    for kind in Kind::ALL {
        assert!(rt; KindSet::all().has(kind));
        assert!(rt; Kind::of_name(kind.name().as_bytes()) == Some(kind));
        assert!(rt; Kind::ALL[kind.number()] == kind);
    }
    assert_eq!(rt; Kind::of_name(b"PICK_FIRST"), None);
    assert_eq!(rt;
        Kind::of_name_in_any_case(b"Round_ROBIN"),
        Some(Kind::RoundRobin)
    );
    assert_eq!(rt; Kind::of_name_in_any_case(b"round-robin"), None);
}

#[test]
fn replies_are_copied_whole(rt: HostRuntime) -> Result<(), Fail> {
    let path = Text::of_slice(rt.alloc(), b"methodConfig[0].timeout")?;
    let fault = ConfigFault::Field { path };
    assert!(rt; fault.copy()? == fault);
    let reply = Reply::BadConfig { fault }.copy()?;
    let Reply::BadConfig { fault } = reply else {
        assert!(rt; false);
        return Ok(());
    };
    let json = ConfigFault::Json {
        fault: JsonFault::TooLong,
    };
    assert!(rt; fault != json);
    Ok(())
}

#[test]
fn faults_print_a_sentence(rt: HostRuntime) -> Result<(), Fail> {
    let texts = [
        format!(in rt.alloc(); "{}", NoMemory)?,
        format!(in rt.alloc(); "{}", MetaFault::BadName)?,
        format!(in rt.alloc(); "{}", MetaFault::BadValue)?,
        format!(in rt.alloc(); "{}", MetaFault::TooLong)?,
        format!(in rt.alloc(); "{}", MetaFault::NoMemory)?,
    ];
    let wants = [
        "out of memory",
        "a metadata name that may not be sent",
        "a metadata value that is not printable ASCII",
        "more than 14,336 bytes of metadata",
        "out of memory",
    ];
    for (text, want) in texts.iter().zip(wants) {
        assert_eq!(rt; text.as_str(), want);
    }
    Ok(())
}

#[test]
fn an_entry_is_small(rt: HostRuntime) {
    assert!(rt; size_of::<Event>() <= 80);
    assert!(rt; size_of::<Reply>() <= 64);
    assert!(rt; size_of::<Entry>() < 200);
}
