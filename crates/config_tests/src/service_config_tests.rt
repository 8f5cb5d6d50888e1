// What is read of service configs for each set of policies, and what is appended to other text.
use grpc_base::{ConfigFault, JsonFault, Kind, KindSet};
use service_config::{Config, append_config, append_fault, config_text, fault_text, read_config};
use std::alloc::Global;
use std::test::Fail;

/// What is reported of a text: the lines of its reading, or that of its fault.
fn reported_for(alloc: Global, text: &[u8], kinds: KindSet) -> Result<Vec<u8>, Fail> {
    match read_config(alloc, text, kinds) {
        Ok(config) => Ok(config_text(alloc, &config)?),
        Err(fault) => Ok(fault_text(alloc, &fault)?),
    }
}

fn reported(alloc: Global, text: &[u8]) -> Result<Vec<u8>, Fail> {
    reported_for(alloc, text, KindSet::all())
}

/// The kinds that are supported decide.
#[test]
fn reads_for_the_kinds_that_are_supported(rt: HostRuntime) -> Result<(), Fail> {
    let mut second = KindSet::new();
    second.add(Kind::RoundRobin);
    let both = r#"{"loadBalancingConfig":[{"pick_first":{}},{"round_robin":{}}]}"#;
    let first = "policy pick_first\nthrottle - -\nend 0\n";
    let other = "policy round_robin\nthrottle - -\nend 0\n";
    let none = "fault config 5 -\n";
    for (text, kinds, want) in [
        ("{}", KindSet::new(), none),
        ("{}", second, none),
        (both, KindSet::new(), none),
        (both, second, other),
        (both, KindSet::all(), first),
        (r#"{"loadBalancingPolicy":"pick_first"}"#, second, none),
        (r#"{"loadBalancingPolicy":"round_robin"}"#, second, other),
    ] {
        let reported = reported_for(rt.alloc(), text.as_bytes(), kinds)?;
        assert_eq!(rt; std::str::from_utf8(&reported)?, want, "{text}");
    }
    Ok(())
}

#[test]
fn reads_no_field_of_the_empty_config(rt: HostRuntime) -> Result<(), Fail> {
    let mut text = Vec::new(rt.alloc());
    append_config(&mut text, &Config::empty(rt.alloc()))?;
    assert_eq!(rt; text.as_slice(), reported(rt.alloc(), b"{}")?.as_slice());
    Ok(())
}

#[test]
fn writes_a_fault_after_other_text(rt: HostRuntime) -> Result<(), Fail> {
    let fault = ConfigFault::Json {
        fault: JsonFault::TooDeep { at: 17 },
    };
    let mut text = b"badconfig".to_vec(rt.alloc())?;
    append_fault(&mut text, &fault)?;
    assert_eq!(rt; text.as_slice(), b"badconfig 1 3:17".as_slice());
    Ok(())
}
