// The values of a config: the examples of gRFC A6, fields that are there, absent or wrong, and a path.
use config_values::{
    Fault, Field, Object, Place, duration, fields_at, flag, plan_in, reported, size, text,
    throttle_in, value_of,
};
use grpc_base::{
    CallPlan, Code, CodeSet, ConfigFault, Duration, HedgePolicy, RetryPolicy, Throttle,
};
use json_text::{Json, read_json};
use std::alloc::Global;
use std::test::Fail;

fn read(alloc: Global, bytes: &[u8]) -> Result<Json, Fail> {
    Ok(read_json(alloc, bytes).ok().ok_or("a JSON text")?)
}

fn nanos(count: u64) -> Result<Duration, Fail> {
    Ok(Duration::new(count).ok_or("a duration")?)
}

fn codes_of(codes: &[Code]) -> CodeSet {
    let mut set = CodeSet::new();
    for code in codes {
        set.add(*code);
    }
    set
}

static RETRY: &[u8] =
    b"{\"retryPolicy\":{\"maxAttempts\":4,\"initialBackoff\":\"0.1s\",\"maxBackoff\":\"1s\",\"backoffMultiplier\":2,\"retryableStatusCodes\":[\"UNAVAILABLE\"]}}";

static HEDGE: &[u8] =
    b"{\"hedgingPolicy\":{\"maxAttempts\":4,\"hedgingDelay\":\"0.5s\",\"nonFatalStatusCodes\":[\"UNAVAILABLE\",\"INTERNAL\",\"ABORTED\"]}}";

#[test]
fn reads_the_policies(rt: HostRuntime) -> Result<(), Fail> {
    let retry = read(rt.alloc(), RETRY)?;
    let policy = RetryPolicy {
        max: 4,
        initial: nanos(100_000_000)?,
        limit: nanos(1_000_000_000)?,
        multiplier: 2000,
        codes: codes_of(&[Code::Unavailable]),
    };
    let fields = retry.as_object().ok_or("an object")?;
    assert_eq!(rt; plan_in(0, fields), Ok(CallPlan::Retry(policy)));
    let hedge = read(rt.alloc(), HEDGE)?;
    let policy = HedgePolicy {
        max: 4,
        delay: nanos(500_000_000)?,
        codes: codes_of(&[Code::Aborted, Code::Internal, Code::Unavailable]),
    };
    let fields = hedge.as_object().ok_or("an object")?;
    assert_eq!(rt; plan_in(0, fields), Ok(CallPlan::Hedge(policy)));
    Ok(())
}

#[test]
fn reads_the_throttling(rt: HostRuntime) -> Result<(), Fail> {
    let value = read(
        rt.alloc(),
        b"{\"retryThrottling\":{\"maxTokens\":10,\"tokenRatio\":0.1}}",
    )?;
    let fields = value.as_object().ok_or("an object")?;
    let throttle = Throttle {
        start: 10_000,
        ratio: 100,
    };
    assert_eq!(rt; throttle_in(fields), Ok(Some(throttle)));
    Ok(())
}

#[test]
fn reads_fields_that_may_be_absent(rt: HostRuntime) -> Result<(), Fail> {
    let bytes =
        b"{\"service\":\"a.B\",\"waitForReady\":true,\"maxRequestMessageBytes\":\"7\",\"timeout\":\"1.5s\",\"name\":[1,2]}";
    let value = read(rt.alloc(), bytes)?;
    let entry = Object::Entry(0);
    let fields = fields_at(entry, &value).ok().ok_or("an object")?;
    assert_eq!(rt;
        text(entry, Field::Service, fields),
        Ok(Some(b"a.B".as_slice()))
    );
    assert_eq!(rt; flag(entry, Field::WaitForReady, fields), Ok(Some(true)));
    assert_eq!(rt;
        size(entry, Field::MaxRequestMessageBytes, fields),
        Ok(Some(7))
    );
    assert_eq!(rt;
        size(entry, Field::MaxResponseMessageBytes, fields),
        Ok(None)
    );
    assert_eq!(rt;
        duration(entry, Field::Timeout, fields),
        Ok(Some(nanos(1_500_000_000)?))
    );
    let wrong = Fault::Wrong(Place::Field(entry, Field::Name));
    assert_eq!(rt; flag(entry, Field::Name, fields), Err(wrong));
    let names = value_of(fields, Field::Name).and_then(Json::as_list);
    assert_eq!(rt; names.ok_or("a list")?.len(), 2);
    Ok(())
}

#[test]
fn reports_the_path_of_a_fault(rt: HostRuntime) -> Result<(), Fail> {
    let place = Place::Element(Object::RetryPolicy(1), Field::RetryableStatusCodes, 20);
    let ConfigFault::Field { path } = reported(rt.alloc(), Fault::Wrong(place)) else {
        return Err("a fault of a field".into());
    };
    assert_eq!(rt;
        path.as_slice(),
        b"methodConfig[1].retryPolicy.retryableStatusCodes[20]".as_slice()
    );
    Ok(())
}
