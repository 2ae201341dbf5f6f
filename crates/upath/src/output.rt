//! Lines of output, at the end of a vector.
ghost use Rattle.std.specs.Fmt.{decimal};
ghost use Rattle.std.specs.Prelude.{◌≡◌, ◌++◌, OnOk};
ghost use Rattle.uefi_text.specs.Views.{units_of};
ghost use Rattle.upath.specs.Output.{line, text_line};

use std::alloc::{AllocError, Allocator};
use uefi_text::strings::strs::Char16Slice;

/// Adds a line: the characters of a text.
pub(crate) fn add_line<A: Allocator>(output: &mut Vec<u8, A>, text: &str) -> Result<(), AllocError>
    ensures { OnOk result (output.new.items ≡ output.old.items ++ line text.now) }
{
    output.extend_from_slice(text.as_bytes())?;
    output.extend_from_slice(b"\n")
}

/// Adds a line: a word and a count in decimal.
pub(crate) fn add_count_line<A: Allocator>(
    alloc: A,
    output: &mut Vec<u8, A>,
    word: &str,
    count: usize,
) -> Result<(), AllocError>
    ensures { OnOk result (output.new.items ≡ output.old.items ++ line (word.now ++ decimal count)) }
{
    let text = format!(in alloc; "{word}{count}")?;
    add_line(output, &text)
}

/// Adds a line: a mark and the characters of a text.
pub(crate) fn add_text_line<A: Allocator>(
    output: &mut Vec<u8, A>,
    mark: &[u8],
    text: Char16Slice<'_>,
) -> Result<(), AllocError>
    ensures { OnOk result (output.new.items ≡ output.old.items ++ text_line mark.now (units_of text.entry)) }
{
    output.extend_from_slice(mark)?;
    text.add_utf8_to(output)?;
    output.extend_from_slice(b"\n")
}
