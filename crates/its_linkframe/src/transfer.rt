//! Whole buffers, in as many calls of a source or a sink as it needs.

ghost use Rattle.std.specs.Prelude.{◌≡◌, ◌-◌, ◌^◌, ◌<◌, ◌≤◌, length, take};
ghost use Rattle.std.specs.Prelude.{IfSome, IfNone, MatchOption};
ghost use Rattle.std.specs.Io.KnownBytes.{Consumes, Appends, IsAtEnd};
ghost use Rattle.its_linkframe.specs.Devices.{counted, ConsumesPrefix, AppendsPrefix};

use crate::sink::Sink;
use crate::source::Source;

/// Reads until the buffer is full or the input ends, and returns how many octets came. `None` is a
/// failed call, after which no other is made. The count of the source's failed calls has to be
/// below 2^64 - 1.
pub fn fill<S: Source>(source: &mut S, buf: &mut [u8]) -> Option<usize>
    requires { S.failed source.old < 2 ^ 64 - 1 }
    ensures bound { IfSome result (λ n. n ≤ length buf.new) }
    ensures counts { S.failed source.new ≡ counted (S.failed source.old) result }
    ensures bytes { IfSome result
        (λ n. Consumes (S.remaining source.old) (S.remaining source.new) (take n buf.new)) }
    ensures end { IfSome result (λ n. n < length buf.new → IsAtEnd (S.remaining source.new)) }
    ensures lost { IfNone result
        (ConsumesPrefix (S.remaining source.old) (S.remaining source.new)) }
{
    let mut at = 0;
    while at < buf.len() {
        let n = source.pull(&mut buf[at..])?;
        if n == 0 {
            return Some(at);
        }
        at += n;
    }
    Some(at)
}

/// Writes all octets. `None` is a failed call, after which no other is made: the sink then has a
/// prefix of the octets. The count of the sink's failed calls has to be below 2^64 - 1.
pub fn store<S: Sink>(sink: &mut S, octets: &[u8]) -> Option<()>
    requires { S.failed sink.old < 2 ^ 64 - 1 }
    ensures counts { S.failed sink.new ≡ counted (S.failed sink.old) result }
    ensures bytes { MatchOption result
        (AppendsPrefix (S.contents sink.old) (S.contents sink.new) octets.now)
        (λ _. Appends (S.contents sink.old) (S.contents sink.new) octets.now) }
{
    let mut at = 0;
    while at < octets.len() {
        at += sink.push(&octets[at..])?;
    }
    Some(())
}
