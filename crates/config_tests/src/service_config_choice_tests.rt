// What a config chooses for the path of a call.
use grpc_base::{
    CallPlan, Chosen, Code, CodeSet, Duration, HedgePolicy, KindSet, MessageLimit, RetryPolicy,
    Text, Throttle,
};
use service_config::{Config, read_config};
use std::alloc::Global;
use std::process::Abort;
use std::test::Fail;

/// The default, a service and a method, each with settings of its own.
static CHOICES: &str = r#"{"methodConfig":[
{"name":[{}],"maxRequestMessageBytes":1,"hedgingPolicy":{"maxAttempts":3,"hedgingDelay":"1s"}},
{"name":[{"service":"a.B"}],"waitForReady":true,"maxRequestMessageBytes":4194304,"maxResponseMessageBytes":4194305},
{"name":[{"service":"a.B","method":"Get"}],"waitForReady":false,"timeout":"2s","maxRequestMessageBytes":4294967295,"maxResponseMessageBytes":4194303,
"retryPolicy":{"initialBackoff":"1s","maxBackoff":"2s","maxAttempts":4,"backoffMultiplier":1.5,"retryableStatusCodes":[14]}}],
"retryThrottling":{"maxTokens":1,"tokenRatio":1}}"#;

fn config(alloc: Global, text: &str) -> Result<Config, Fail> {
    let read = read_config(alloc, text.as_bytes(), KindSet::all());
    Ok(read.ok().ok_or("a config")?)
}

fn limit(bytes: u32) -> Result<MessageLimit, Fail> {
    Ok(MessageLimit::new(bytes).ok_or("a limit")?)
}

fn nanos(count: u64) -> Result<Duration, Fail> {
    Ok(Duration::new(count).ok_or("a duration")?)
}

static THROTTLE: Throttle = Throttle {
    start: 1000,
    ratio: 1000,
};

/// What the default says.
fn of_default() -> Result<Chosen, Fail> {
    Ok(Chosen {
        wait: None,
        timeout: None,
        request: limit(1)?,
        response: limit(4_194_304)?,
        plan: CallPlan::Hedge(HedgePolicy {
            max: 3,
            delay: nanos(1_000_000_000)?,
            codes: CodeSet::new(),
        }),
        throttle: Some(THROTTLE),
    })
}

/// What the service says.
fn of_service() -> Result<Chosen, Fail> {
    Ok(Chosen {
        wait: Some(true),
        timeout: None,
        request: limit(4_194_304)?,
        response: limit(4_194_304)?,
        plan: CallPlan::None,
        throttle: Some(THROTTLE),
    })
}

/// What the method says.
fn of_method() -> Result<Chosen, Fail> {
    let mut codes = CodeSet::new();
    codes.add(Code::Unavailable);
    Ok(Chosen {
        wait: Some(false),
        timeout: Some(nanos(2_000_000_000)?),
        request: limit(4_194_304)?,
        response: limit(4_194_303)?,
        plan: CallPlan::Retry(RetryPolicy {
            max: 4,
            initial: nanos(1_000_000_000)?,
            limit: nanos(2_000_000_000)?,
            multiplier: 1500,
            codes,
        }),
        throttle: Some(THROTTLE),
    })
}

/// Paths, of which some differ in one byte or in their length, and texts that are none.
static PATHS: &str = "method /a.B/Get
service /a.B/Ge
service /a.B/Gets
service /a.B/get
service /a.B/Put
service /a.B/~
service /a.B/!
default /a.C/Get
default /a./Get
default /a.BB/Get
default /a.b/Get
default /b.B/Get
default a.B/Get
default x/a.B/Get
default /a.B/Get/x
default /a.B/Get/
default /a.B/
default /a.B
default //Get
default /a.B/G t
default /a.B/G\u{7f}
default ";

/// Tests what a config chooses for a path: what this entry says.
fn expect(
    rt: &impl Abort,
    alloc: Global,
    config: &Config,
    entry: &str,
    path: &[u8],
) -> Result<(), Fail> {
    let want = match entry {
        "method" => of_method()?,
        "service" => of_service()?,
        _ => of_default()?,
    };
    let path = Text::of_slice(alloc, path)?;
    assert_eq!(rt; config.chosen(&path), want, "{entry} {path:?}");
    Ok(())
}

fn expect_all(rt: &impl Abort, alloc: Global, config: &Config) -> Result<(), Fail> {
    for line in PATHS.lines() {
        let (entry, path) = line.split_once(' ').ok_or("an entry")?;
        expect(rt, alloc, config, entry, path.as_bytes())?;
    }
    Ok(())
}

#[test]
fn chooses_for_paths(rt: HostRuntime) -> Result<(), Fail> {
    let config = config(rt.alloc(), CHOICES)?;
    expect_all(&rt, rt.alloc(), &config)
}

fn expect_longest(rt: &impl Abort, alloc: Global, config: &Config) -> Result<(), Fail> {
    let mut path = b"/a.B/".to_vec(alloc)?;
    path.resize(1024, b'x')?;
    expect(rt, alloc, config, "service", &path)?;
    path.push(b'x')?;
    expect(rt, alloc, config, "default", &path)
}

/// A path may have 1,024 bytes.
#[test]
fn chooses_for_the_longest_path(rt: HostRuntime) -> Result<(), Fail> {
    let config = config(rt.alloc(), CHOICES)?;
    expect_longest(&rt, rt.alloc(), &config)
}

/// Without an entry nothing is said but of throttling.
#[test]
fn chooses_nothing_where_no_entry_stands(rt: HostRuntime) -> Result<(), Fail> {
    let alloc = rt.alloc();
    let nothing = Chosen {
        wait: None,
        timeout: None,
        request: limit(4_194_304)?,
        response: limit(4_194_304)?,
        plan: CallPlan::None,
        throttle: None,
    };
    let path = Text::of_slice(alloc, b"/a.B/Get")?;
    assert_eq!(rt; Config::empty(alloc).chosen(&path), nothing);
    let throttled = config(
        alloc,
        r#"{"methodConfig":[{"name":[{"service":"a"}]}],"retryThrottling":{"maxTokens":1,"tokenRatio":1}}"#,
    )?;
    let want = Chosen {
        throttle: Some(THROTTLE),
        ..nothing
    };
    assert_eq!(rt; throttled.chosen(&path), want);
    Ok(())
}
