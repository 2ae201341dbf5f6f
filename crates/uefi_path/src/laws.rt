//! The laws of paths, for proofs of callers. They are about the definitions that other contracts
//! cite. Each law is a function that does nothing: its contract is the law.
ghost use Rattle.uefi_path.specs.Ancestors.{BeginningsArePrefixes};
ghost use Rattle.uefi_path.specs.FileNames.{NamedOnce, NamedOrNot};
ghost use Rattle.uefi_path.specs.Laws.{AreComponentsWhereSame, ComponentsOnce, NoComponentsOfEmpty, OneMoreThanSeparators, TextsHaveComponents};
ghost use Rattle.uefi_path.specs.Laws.{EqualWhereSameCanonical, EqualityIsEquivalence, OrderIsTotal, OrderTiesEqual, SameParent};
ghost use Rattle.uefi_path.specs.Laws.{EmptyAfterIsUnit, EmptyBeforeIsUnit, PushingIsAssociative};
ghost use Rattle.uefi_path.specs.Laws.{ComponentsAreJoined, FullTextsTakeMore, JoinedAreSame, JoinedAreValid};
ghost use Rattle.uefi_path.specs.Laws.{ParentIsNotDoubled, ParentIsRelative, ParentIsValid};
ghost use Rattle.uefi_path.specs.Laws.{CanonicalIsEqual, ComponentsRebuild, ParentOfJoined, RefusedForFirst, ValidWhereUnrefused};
ghost use Rattle.uefi_path.specs.Laws.{AreParentsWhereSame, FewerParents, ParentsArePrefixes, ParentsOfAreParents, WalkingUpEnds};
ghost use Rattle.uefi_path.specs.Laws.{NormalFormWhereSame, NormalFormsAgree, NormalFormsExist, NormalFormsOnce, NormalHoldsNames, NormalIsNoLonger, NormalIsNormal, NormalIsValid, NormalPathsAgree};

/// Every text has exactly one list of components, `components_of` it: an empty list if its
/// canonical text is empty, and otherwise one more than the canonical text has separators.
pub fn split_once()
    ensures split { TextsHaveComponents }
    ensures once { ComponentsOnce }
    ensures same { AreComponentsWhereSame }
    ensures none { NoComponentsOfEmpty }
    ensures count { OneMoreThanSeparators }
{}

/// A path is valid exactly if `validate_path` does not refuse it.
#[tactic(auto, using(crate::proofs::Validity::valid_unrefused))]
pub fn validity()
    ensures { ValidWhereUnrefused }
{}

/// A path is refused as empty, or for its first component that names no file or climbs above the
/// root: every component before that one is good, and none of them climbs.
pub fn refused_for_first()
    ensures { RefusedForFirst }
{}

/// Equal paths have the same parent, or both have none.
pub fn parent_congruence()
    ensures { SameParent }
{}

/// Paths are totally ordered, equality is an equivalence, and two paths are equal exactly if
/// neither is less, which means that their canonical texts are the same.
pub fn order_agrees()
    ensures total { OrderIsTotal }
    ensures ties { OrderTiesEqual }
    ensures equivalence { EqualityIsEquivalence }
    ensures equal { EqualWhereSameCanonical }
{}

/// Plain paths are a monoid under `Path::join`: their grouping does not matter, and the empty path
/// changes nothing on either side.
pub fn join_monoid()
    ensures associative { PushingIsAssociative }
    ensures after { EmptyAfterIsUnit }
    ensures before { EmptyBeforeIsUnit }
{}

/// The components of two joined paths are the components of the first, followed by those of the
/// second, if the first does not end in a separator, or is empty or the root, and the second begins
/// with none.
pub fn join_components()
    ensures joined { ComponentsAreJoined }
    ensures full { FullTextsTakeMore }
{}

/// If the second of two valid paths begins with no separator, they join to a valid path.
pub fn join_valid()
    ensures { JoinedAreValid }
{}

/// Equal paths with at least one component stay equal when the same path is joined to both. Equal
/// paths without components may not: `\a` joined to the empty path and to the root makes `\a` and
/// `\\a`.
pub fn join_congruence()
    ensures { JoinedAreSame }
{}

/// The parent of a plain path begins with no separator, and contains no two separators in a row.
#[tactic(auto, using(crate::proofs::ParentForm::parent_text_not_doubled, crate::proofs::ParentForm::prefix_parent_text))]
pub fn parent_shape()
    ensures relative { ParentIsRelative }
    ensures not_doubled { ParentIsNotDoubled }
{}

/// The parent of a valid path, if there is one, is valid.
#[tactic(auto, using(crate::proofs::ParentForm::valid_parent_text))]
pub fn parent_valid()
    ensures { ParentIsValid }
{}

/// The components of a valid path, joined one by one to the empty path, give its canonical text.
#[tactic(auto, using(crate::proofs::ParentForm::pushed_components))]
pub fn push_components()
    ensures { ComponentsRebuild }
{}

/// Joining one good component to a valid path that has components, and then taking the parent,
/// gives an equal path.
pub fn join_then_parent()
    ensures parent { ParentOfJoined }
    ensures equal { CanonicalIsEqual }
{}

/// The successive parents of a valid path are its shorter prefixes, the longest first, down to the
/// first component alone.
pub fn parents_enumerate()
    ensures { ParentsArePrefixes }
{}

/// Walking up from any path ends, and passes `parents_of` it and nothing else. A plain path of n
/// components has at most n - 1 successive parents, or none if n is 0.
pub fn parent_count()
    ensures ends { WalkingUpEnds }
    ensures parents { ParentsOfAreParents }
    ensures same { AreParentsWhereSame }
    ensures fewer { FewerParents }
{}

/// Each list of pieces has exactly one normal form, `normal_of` it. Two lists have the same normal
/// form exactly if both lead to some common list by deleting `.`, and names with the `..` right
/// after them.
pub fn normal_unique()
    ensures exists { NormalFormsExist }
    ensures once { NormalFormsOnce }
    ensures same { NormalFormWhereSame }
    ensures agree { NormalFormsAgree }
{}

/// The normal path of a valid path is valid, contains neither `.` nor `..`, and is its own normal
/// path. Two valid paths have equal normal paths exactly if these steps lead from the components of
/// both to some common list of pieces. A normal path has no more units than the path from which it
/// is made.
pub fn normal_once()
    ensures valid { NormalIsValid }
    ensures names { NormalHoldsNames }
    ensures again { NormalIsNormal }
    ensures agree { NormalPathsAgree }
    ensures no_longer { NormalIsNoLonger }
{}

/// A name has one stem and one extension, or no extension.
pub fn named_once()
    ensures once { NamedOnce }
    ensures or_not { NamedOrNot }
{}

/// The beginnings of a path that has components are its canonical text and its shorter prefixes,
/// which are the successive parents of a valid path ([`parents_enumerate`]).
#[tactic(auto, using(crate::proofs::TakenComponents::beginnings_are_prefixes))]
pub fn ancestors_enumerate()
    ensures { BeginningsArePrefixes }
{}
