//! The line of a value: its keys in order, its octets, and the kinds that no line has.

use crate::equality::same;
use its_words::json_lines::{JsonFault, JsonLine, Octets, Printed};
use serde::Serialize;
use std::process::Abort;
use std::test::Fail;

#[derive(Clone, Copy, Serialize)]
struct Outer<'a> {
    first: u64,
    #[serde(skip_serializing_if = "Option::is_none")]
    maybe: Option<i16>,
    #[serde(rename = "do")]
    word: &'a str,
    #[serde(flatten)]
    inner: Option<Inner<'a>>,
    last: Octets<'a>,
}

#[derive(Clone, Copy, Serialize)]
struct Inner<'a> {
    truth: bool,
    #[serde(flatten)]
    deeper: Deeper,
    numbers: &'a [i32],
}

#[derive(Clone, Copy, Serialize)]
struct Deeper {
    printed: Printed<u8>,
}

fn expect<T: Serialize>(
    rt: &impl Abort,
    line: &mut JsonLine,
    value: &T,
    want: &str,
) -> Result<(), Fail> {
    same(rt, line.of(value)?, want.as_bytes());
    Ok(())
}

#[test]
fn fields_are_keys_in_order(rt: HostRuntime) -> Result<(), Fail> {
    let mut line = JsonLine::new(rt.alloc())?;
    let mut outer = Outer {
        first: 18446744073709551615,
        maybe: None,
        word: "a \"quoted\" word",
        inner: None,
        last: Octets(&[]),
    };
    let want = "{\"first\":18446744073709551615,\"do\":\"a \\\"quoted\\\" word\",\"last\":\"\"}\n";
    expect(&rt, &mut line, &outer, want)?;
    outer.maybe = Some(-16384);
    outer.inner = Some(Inner {
        truth: true,
        deeper: Deeper {
            printed: Printed(7),
        },
        numbers: &[-1, 0],
    });
    outer.last = Octets(&[0, 0xaf, 0x10]);
    let want = "{\"first\":18446744073709551615,\"maybe\":-16384,\"do\":\"a \\\"quoted\\\" word\",\
        \"truth\":true,\"printed\":\"7\",\"numbers\":[-1,0],\"last\":\"00af10\"}\n";
    expect(&rt, &mut line, &outer, want)
}

#[test]
fn other_kinds_have_no_line(rt: HostRuntime) -> Result<(), Fail> {
    let mut line = JsonLine::new(rt.alloc())?;
    same(&rt, line.of(&0.5f64).err(), Some(JsonFault::Kind));
    same(&rt, line.of(&'a').err(), Some(JsonFault::Kind));
    expect(&rt, &mut line, &(), "null\n")
}
