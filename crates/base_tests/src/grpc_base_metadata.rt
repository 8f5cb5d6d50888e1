// The greatest metadata of a request, and that of a response.
use grpc_base::{Field, MetaFault, Metadata, Octets};
use std::alloc::Global;
use std::test::Fail;

/// Metadata of 434 pairs that comes to 14,336 bytes as it is sent: 433 of 33 and one of 47.
fn greatest(alloc: Global) -> Result<Metadata, MetaFault> {
    let mut meta = Metadata::new(alloc);
    for _ in 0..433u32 {
        meta.push(b"a", b"")?;
    }
    meta.push(b"b", b"fourteen bytes")?;
    Ok(meta)
}

#[test]
fn the_greatest_metadata_is_taken_and_copied(rt: HostRuntime) -> Result<(), Fail> {
    let mut meta = greatest(rt.alloc())?;
    assert_eq!(rt; meta.push(b"c", b""), Err(MetaFault::TooLong));
    let copy = meta.copy()?;
    assert_eq!(rt; copy.len(), 434);
    assert!(rt; copy.as_slice() == meta.as_slice());
    let value = [0xffu8; 10_000];
    let mut binary = Metadata::new(rt.alloc());
    binary.push(b"a-bin", &value)?;
    assert_eq!(rt; binary.as_slice()[0].value.as_slice(), value.as_slice());
    Ok(())
}

#[test]
fn metadata_of_a_response_is_any(rt: HostRuntime) -> Result<(), Fail> {
    let field = Field {
        name: Octets::of_static(b"Te"),
        value: Octets::of_static(b"\x00"),
    };
    let mut pairs = Vec::new(rt.alloc());
    pairs.push(field.share()?)?;
    let meta = Metadata::of_vec(pairs);
    assert!(rt; meta.as_slice()[0] == field);
    assert!(rt; !meta.is_empty());
    Ok(())
}
