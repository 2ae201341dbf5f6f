//! The ends of the lines of an input.
ghost use Rattle.std.specs.Prelude.{◌≡◌, ◌<◌, IfSome, length, position};
ghost use Rattle.upath.specs.Lines.{is_line_feed};

/// The place of the first line feed. No other byte ends a line.
pub(crate) fn find_line_feed(bytes: &[u8]) -> Option<usize>
    ensures place { result ≡ position is_line_feed bytes.now }
    ensures within { IfSome result (λ place. place < length bytes.now) }
{
    memchr::memchr(b'\n', bytes)
}
