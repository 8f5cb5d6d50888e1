// Targets of an independent model, and the resolver's few calls.
use grpc_base::AddressList;
use resolver_core::{Resolver, Target, TargetFault, read_any_target, read_target};
use std::alloc::{AllocError, Global};
use std::test::Fail;

/// A list of addresses as a target writes it, each with its port.
fn shown(rt: &HostRuntime, addresses: &AddressList) -> Result<String, AllocError> {
    let mut text = String::new(rt.alloc());
    for address in addresses.as_slice() {
        if !text.is_empty() {
            text.push_str(",")?;
        }
        let [a, b, c, d] = address.ip.to_be_bytes();
        let port = address.port;
        let one = format!(in rt.alloc(); "{a}.{b}.{c}.{d}:{port}")?;
        text.push_str(one.as_str())?;
    }
    Ok(text)
}

#[test]
fn reads_targets_of_an_independent_model(rt: HostRuntime) -> Result<(), Fail> {
    let rows = [
        ("ipv4:1.2.3.4", "1.2.3.4:443"),
        ("ipv4:1.2.3.4:80", "1.2.3.4:80"),
        ("ipv4:1.2.3.4,5.6.7.8:1", "1.2.3.4:443,5.6.7.8:1"),
        ("ipv4:0.0.0.0:65535", "0.0.0.0:65535"),
        ("ipv4:255.255.255.255", "255.255.255.255:443"),
        ("ipv4:1.2.3.4,1.2.3.4:443,1.2.3.4", "1.2.3.4:443"),
    ];
    for (text, want) in rows {
        let addresses = read_target(text.as_bytes())?;
        let got = shown(&rt, &addresses)?;
        assert_eq!(rt; got.as_str(), want, "of {text}");
    }
    Ok(())
}

#[test]
fn refuses_targets_of_an_independent_model(rt: HostRuntime) {
    let rows = [
        "",
        "ipv4:",
        "ipv4:1.2.3",
        "ipv4:1.2.3.4.5",
        "ipv4:01.2.3.4",
        "ipv4:256.1.1.1",
        "ipv4:1.2.3.4:0",
        "ipv4:1.2.3.4:65536",
        "ipv4:1.2.3.4:080",
        "ipv4:1.2.3.4,",
        "ipv4:,1.2.3.4",
        "IPV4:1.2.3.4",
        "1.2.3.4",
        "ipv4:1.2.3.4 ",
        "ipv4:1.2.3.4:",
        "ipv4:-1.2.3.4",
        "dns:localhost",
    ];
    for text in rows {
        let refused = matches!(read_target(text.as_bytes()), Err(TargetFault::BadTarget));
        assert!(rt; refused, "of {text}");
    }
}

/// `ipv4:` and the addresses `10.0.0.0` up to `10.0.0.count`, or as often the last of them.
fn many(rt: &HostRuntime, count: u32, same: bool) -> Result<String, AllocError> {
    let mut text = String::from_str(rt.alloc(), "ipv4:")?;
    for i in 0..count {
        let d = if same { 4 } else { i };
        if i != 0 {
            text.push_str(",")?;
        }
        let one = format!(in rt.alloc(); "10.0.0.{d}")?;
        text.push_str(one.as_str())?;
    }
    Ok(text)
}

#[test]
fn counts_items_with_repeats(rt: HostRuntime) -> Result<(), Fail> {
    let most = many(&rt, 64, false)?;
    assert_eq!(rt; read_target(most.as_bytes())?.len(), 64);
    let same = many(&rt, 64, true)?;
    assert_eq!(rt; read_target(same.as_bytes())?.len(), 1);
    for (count, same) in [(65, false), (66, false), (65, true)] {
        let over = many(&rt, count, same)?;
        let refused = matches!(read_target(over.as_bytes()), Err(TargetFault::TooMany));
        assert!(rt; refused, "{count} items");
    }
    Ok(())
}

/// The scheme and the authority of a target, or the name of its fault.
fn reported(alloc: Global, text: &[u8]) -> Result<String, Fail> {
    let target = match read_any_target(alloc, text) {
        Ok(target) => target,
        Err(fault) => return Ok(format!(in alloc; "{fault:?}")?),
    };
    let authority = target.authority(alloc)?;
    let scheme = match target {
        Target::Ipv4(_) => "ipv4",
        Target::Dns(_) => "dns",
    };
    let authority = String::from_utf8_lossy(alloc, authority.as_slice())?;
    Ok(format!(in alloc; "{scheme} {authority}")?)
}

/// Each line a target, and its scheme and authority as an independent model has them, or its fault.
static ANY_TARGETS: &str = "> BadTarget
ipv4:1.2.3.4> ipv4 1.2.3.4:443
ipv4:1.2.3.4:80> ipv4 1.2.3.4:80
ipv4:1.2.3.4,5.6.7.8:1> ipv4 1.2.3.4:443
ipv4:255.255.255.255:65535> ipv4 255.255.255.255:65535
ipv4:1.2.3.4:443,1.2.3.4> ipv4 1.2.3.4:443
ipv4:> BadTarget
ipv4:1.2.3.4:0> BadTarget
ipv4:localhost> BadTarget
IPV4:1.2.3.4> BadTarget
1.2.3.4> BadTarget
DNS:x> BadTarget
dns> BadTarget
dns:localhost> dns localhost:443
dns:x> dns x:443
dns:x:1> dns x:1
dns:x:443> dns x:443
dns:///x> dns x:443
dns:///x:65535> dns x:65535
dns:a-1.example.com> dns a-1.example.com:443
dns:a--b> dns a--b:443
dns:A.b> dns A.b:443
dns:1.2.3.4> dns 1.2.3.4:443
dns:0> dns 0:443
dns:> BadHost
dns:///> BadHost
dns:///:80> BadHost
dns::80> BadHost
dns://x> BadHost
dns:/x> BadHost
dns:////x> BadHost
dns://8.8.8.8/x> BadHost
dns:-x> BadHost
dns:x-> BadHost
dns:a.-b> BadHost
dns:a-.b> BadHost
dns:-> BadHost
dns:x..y> BadHost
dns:.x> BadHost
dns:x.> BadHost
dns:x.:80> BadHost
dns:a_b> BadHost
dns:a*b> BadHost
dns:caf\u{e9}> BadHost
dns:x > BadHost
dns:x:> BadHost
dns:x:0> BadHost
dns:x:01> BadHost
dns:x:65536> BadHost
dns:x:+1> BadHost
dns:x:y> BadHost
dns:x:1:2> BadHost
dns:x,y> BadHost";

#[test]
fn reads_targets_of_either_scheme(rt: HostRuntime) -> Result<(), Fail> {
    for line in ANY_TARGETS.lines() {
        let (text, want) = line.split_once("> ").ok_or("a line")?;
        let got = reported(rt.alloc(), text.as_bytes())?;
        assert_eq!(rt; got.as_str(), want, "of {text}");
    }
    Ok(())
}

/// A text of `a` with a dot after each label of this many bytes.
fn host_of(alloc: Global, label: u32, size: u32) -> Result<String, AllocError> {
    let mut host = String::new(alloc);
    let mut left = label;
    for _ in 0..size {
        if left == 0 {
            host.push_str(".")?;
            left = label;
        } else {
            host.push_str("a")?;
            left -= 1;
        }
    }
    Ok(host)
}

#[test]
fn hosts_have_their_bounds(rt: HostRuntime) -> Result<(), Fail> {
    let alloc = rt.alloc();
    let rows = [
        (63, 63, true),
        (64, 64, false),
        (63, 191, true),
        (64, 191, false),
        (1, 253, true),
        (2, 254, false),
        (63, 253, true),
        (63, 254, false),
    ];
    for (label, size, is_host) in rows {
        let host = host_of(alloc, label, size)?;
        for port in ["443", "65535"] {
            let text = format!(in alloc; "dns:///{host}:{port}")?;
            let want = if is_host {
                format!(in alloc; "dns {host}:{port}")?
            } else {
                String::from_str(alloc, "BadHost")?
            };
            let got = reported(alloc, text.as_bytes())?;
            assert_eq!(rt;
                got.as_str(),
                want.as_str(),
                "labels of {label} in {size} bytes"
            );
        }
    }
    Ok(())
}

#[test]
fn counts_items_of_either_reader_alike(rt: HostRuntime) -> Result<(), Fail> {
    let alloc = rt.alloc();
    for (count, want) in [(64, "ipv4 10.0.0.0:443"), (65, "TooMany")] {
        let text = many(&rt, count, false)?;
        let got = reported(alloc, text.as_bytes())?;
        assert_eq!(rt; got.as_str(), want, "{count} items");
    }
    Ok(())
}

#[test]
fn asks_again_after_a_failed_dial(rt: HostRuntime) {
    let mut resolver = Resolver::new();
    assert!(rt; resolver.wants_resolution());
    resolver.accept(&AddressList::new());
    assert!(rt; !resolver.wants_resolution());
    resolver.want();
    assert!(rt; resolver.wants_resolution());
    resolver.refuse();
    assert!(rt; !resolver.wants_resolution());
}
