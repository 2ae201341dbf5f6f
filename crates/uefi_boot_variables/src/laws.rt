//! The laws of names and orders, for proofs of callers. Each law is a function that does nothing:
//! its contract is the law.
ghost use Rattle.uefi_boot_variables.specs.Laws.{EachOnce, EachStands, NamesAreTexts, NamesOnce, OnceStays, OthersKeepOrder, OthersStay, PutWhereAsked, StandsIsContains, TakenOutIsGone};

/// No two names have the same text, and each name can be stored as a string, so that
/// [`LoadOptionName::write_cstr16`](crate::LoadOptionName::write_cstr16) writes a string that is
/// read back as that name, and as no other.
pub fn names_once()
    ensures once { NamesOnce }
    ensures texts { NamesAreTexts }
{}

/// The meaning of the test in contracts of edits that a list contains a number.
pub fn order_tests()
    ensures stands { StandsIsContains }
{}

/// An edit of an order changes the place of one number: a removed number is gone, an inserted
/// number is where it was put, and the others stay, in their order.
pub fn order_edits()
    ensures gone { TakenOutIsGone }
    ensures others { OthersStay }
    ensures order { OthersKeepOrder }
    ensures place { PutWhereAsked }
{}

/// An order with each number once has the same numbers, none twice, and is the order itself if no
/// number occurred twice.
pub fn once_each()
    ensures stands { EachStands }
    ensures once { EachOnce }
    ensures same { OnceStays }
{}
