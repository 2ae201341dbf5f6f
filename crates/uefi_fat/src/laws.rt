//! The laws of names, for proofs of callers. They are about the definitions that other contracts
//! cite. Each law is a function that does nothing: its contract is the law.
ghost use Rattle.uefi_fat.specs.Laws.{FatNamesOfOneFile, IsBetweenTrimmed, NeitherEndIsTrimmed, SameFileAsTrimmed, SameFileIsEquivalence, SameFileWhereTrimmedSame, SameFileWithoutCase, ShortNamesAreFatNames, TrimmedOnce};

/// Trimming removes exactly the spaces at the start of a name, and the spaces and dots at its end.
/// Trimming once is enough.
pub fn trimming()
    ensures between { IsBetweenTrimmed }
    ensures ends { NeitherEndIsTrimmed }
    ensures once { TrimmedOnce }
{}

/// Naming the same file is an equivalence. It holds for a name and its trimmed part, and for names
/// that are the same without case. Of two names for the same file, a file can have either both or
/// neither.
pub fn one_file()
    ensures equivalence { SameFileIsEquivalence }
    ensures same { SameFileWhereTrimmedSame }
    ensures trimmed { SameFileAsTrimmed }
    ensures without_case { SameFileWithoutCase }
    ensures names { FatNamesOfOneFile }
{}

/// A file can have any 8.3 name.
pub fn short_names()
    ensures { ShortNamesAreFatNames }
{}
