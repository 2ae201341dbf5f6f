//! Numbers that are put into a sink.
#![tactic(auto, using(crate::proofs::Puts::puts))]

ghost use Rattle.std.specs.Fmt.{WritesInCalls, decimal, digit_glyph, digits};
ghost use Rattle.std.specs.Prelude.{◌≡◌, ◌≤◌, ◌<◌, ◌++◌, drop, nat_lt};

use crate::text_sink::TextSink;

/// The greatest number of digits of a number, in base 2.
const MOST_DIGITS: usize = 64;

/// Returns the digit of a number below a base, in upper case, as a byte of a text.
#[inline(always)]
pub fn digit(n: u64, base: u64) -> u8
    requires below { n < base }
    requires small { base ≤ 16 }
    ensures { result ≡ digit_glyph (nat_lt 10 base) n }
{
    let n = n as u8;
    if n < 10 { b'0' + n } else { b'A' - 10 + n }
}

/// Writes the digits of a number to the end of a buffer, and returns where they begin.
#[inline(always)]
fn write_digits(buffer: &mut [u8; MOST_DIGITS], n: u64, base: u64) -> usize
    requires some { 2 ≤ base }
    requires small { base ≤ 16 }
    ensures within { result ≤ 64 }
    ensures digits { drop result buffer.new ≡ digits base (nat_lt 10 base) n }
{
    let mut start = MOST_DIGITS - 1;
    let mut rest = n;
    while base <= rest {
        buffer[start] = digit(rest % base, base);
        rest /= base;
        start -= 1;
    }
    buffer[start] = digit(rest, base);
    start
}

/// Puts a number in a base, in upper case and without leading zeros. It is inlined into each call,
/// so that a base that is a literal there leaves no division.
#[inline(always)]
pub fn put_digits<S: TextSink>(sink: &mut S, n: u64, base: u64)
    requires some { 2 ≤ base }
    requires small { base ≤ 16 }
    ensures { WritesInCalls S.puts sink.old (digits base (nat_lt 10 base) n) sink.new }
{
    let mut buffer = [0; MOST_DIGITS];
    let start = write_digits(&mut buffer, n, base);
    // SAFETY: digits are ASCII, which is proved here as the condition of the call.
    sink.put_str(unsafe { str::from_utf8_unchecked(&buffer[start..]) });
}

/// Puts a text, and a number in decimal.
pub fn put_decimal<S: TextSink>(sink: &mut S, text: &str, n: u64)
    ensures { WritesInCalls S.puts sink.old (text.now ++ decimal n) sink.new }
{
    sink.put_str(text);
    put_digits(sink, n, 10);
}
