//! Comparison of strings with Rust texts, up to the first NUL. Each type of string implements the
//! trait beside its other calls.
ghost use Rattle.std.specs.Prelude.{◌↔◌, ℕ, List, IsTrue};
ghost use Rattle.std.specs.Str.{chars};
ghost use Rattle.uefi_text.specs.EqStrUntilNul.{IsEqualUntilNul};

use crate::encode::same_front;

/// A string that can be compared with a Rust text. A contract sees a value as its `characters`
/// before its NUL.
pub trait EqStrUntilNul {
    /// The characters before the NUL.
    ghost characters: { Self → List ℕ };

    /// Returns whether this string and the part of `other` before its first NUL agree as far as the
    /// shorter one goes: whether one is a prefix of the other. So `te` agrees with `test`, and the
    /// empty text with every string. Does not allocate.
    ///
    /// ```rust
    /// let name = CString16::try_from_str(rt.alloc(), "test")?;
    /// assert!(rt; name.eq_str_until_nul("test\0 and more"));
    /// assert!(rt; name.eq_str_until_nul("te"));
    /// assert!(rt; !name.eq_str_until_nul("tent"));
    /// ```
    fn eq_str_until_nul(&self, other: &str) -> bool
        ensures { IsTrue result ↔ IsEqualUntilNul (characters self.now) (chars other.now) };
}

/// Does what [`EqStrUntilNul::eq_str_until_nul`] does, with the sides exchanged.
///
/// ```rust
/// let name = CStr8::from_bytes_with_nul(b"Boot\0")?;
/// assert!(rt; str_eq_until_nul("Boot", &name));
/// assert!(rt; !str_eq_until_nul("boot", &name));
/// ```
pub fn str_eq_until_nul<S: EqStrUntilNul>(s: &str, other: &S) -> bool
    ensures { IsTrue result ↔ IsEqualUntilNul (S.characters other.now) (chars s.now) }
{
    other.eq_str_until_nul(s)
}

/// Returns whether units are equal to a Rust text until its first NUL, unit by unit.
fn are_equal_by_unit(units: &[u16], other: &str) -> bool
    ensures { IsTrue result ↔ IsEqualUntilNul units.now (chars other.now) }
{
    let mut characters = other.chars();
    for unit in units {
        let Some(character) = characters.next() else {
            return true;
        };
        if character == '\0' {
            return true;
        }
        if u32::from(*unit) != u32::from(character) {
            return false;
        }
    }
    true
}

/// Returns whether units are equal to a Rust text until its first NUL: eight at a time, and then
/// unit by unit.
pub(crate) fn are_equal_by_block(units: &[u16], other: &str) -> bool
    ensures { IsTrue result ↔ IsEqualUntilNul units.now (chars other.now) }
{
    let (len, rest) = same_front(units, other);
    are_equal_by_unit(&units[len..], rest)
}
