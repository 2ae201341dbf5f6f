//! The laws of strings, for proofs of callers. They are about the definitions that other contracts
//! cite. Each law is a function that does nothing: its contract is the law.
ghost use Rattle.uefi_text.specs.CaseLaws.{AsciiCase, AsciiSameWithoutCase, CaselessIsEquivalence, CaselessOrderIsTotal, CaselessWhereSame, LowerOfUpper, LowerOnce, SameWithoutCase, TiesWithoutCase, UpperOfLower, UpperOnce};
ghost use Rattle.uefi_text.specs.PatternLaws.{AnyUnits, CaseIsIgnored, ItselfAlone, NothingAlone, OneOfSet, OneUnit, OpenSet, PlainIsSame};
ghost use Rattle.uefi_text.specs.Laws.{AcceptedWhereEncoded, EncodeOneText, EncodedOnce, TextWhereUnrefused, TextsAreCharacters, TextsAreEncoded};

/// Every text is encoded by exactly one list of bytes, no bytes encode two texts, and bytes are
/// accepted exactly if they encode one: `CStr16::from_bytes_with_nul` and `CStr16::as_bytes` undo
/// one another.
pub fn bytes_once()
    ensures encoded { TextsAreEncoded }
    ensures once { EncodedOnce }
    ensures apart { EncodeOneText }
    ensures accepted { AcceptedWhereEncoded }
{}

/// Characters of Rust are a text exactly if none of them is refused, and each unit of a text is a
/// character: `CString16::try_from_str` and `CStr16::to_rust_string` undo one another.
pub fn text_once()
    ensures unrefused { TextWhereUnrefused }
    ensures characters { TextsAreCharacters }
{}

/// Each conversion reaches its case in one step, and the result does not depend on the case that a
/// unit had before.
pub fn case_once()
    ensures upper { UpperOnce }
    ensures lower { LowerOnce }
    ensures upper_of_lower { UpperOfLower }
    ensures lower_of_upper { LowerOfUpper }
{}

/// `eq_ignore_case` is an equivalence that holds of equal texts, and `cmp_ignore_case` is a total
/// order that gives `Equal` exactly if `eq_ignore_case` holds.
pub fn caseless()
    ensures equivalence { CaselessIsEquivalence }
    ensures same { CaselessWhereSame }
    ensures equal { SameWithoutCase }
    ensures total { CaselessOrderIsTotal }
    ensures ties { TiesWithoutCase }
{}

/// The case of ASCII is the usual one: there `eq_ignore_case` is std's `eq_ignore_ascii_case`.
pub fn ascii_case()
    ensures units { AsciiCase }
    ensures same { AsciiSameWithoutCase }
{}

/// The texts that a pattern matches, by its first part.
pub fn pattern_rules()
    ensures nothing { NothingAlone }
    ensures any { AnyUnits }
    ensures one { OneUnit }
    ensures set { OneOfSet }
    ensures open_set { OpenSet }
    ensures itself { ItselfAlone }
{}

/// The case of a text does not matter, and a pattern without `*`, `?` and `[` matches exactly the
/// texts that are the same without case.
pub fn patterns_without_case()
    ensures plain { PlainIsSame }
    ensures case { CaseIsIgnored }
{}
