//! The forms of texts.

/// Whether a text is only for people, so that it need not contain enough to be read back (UEFI
/// Specification 2.10, section 10.6.2).
#[derive(Clone, Copy, Debug, PartialEq, Eq)]
pub struct DisplayOnly(
    /// Whether it is.
    pub bool,
);

/// Whether a text may have a shorter form, which names the type of a node by a name of its own (UEFI
/// Specification 2.10, section 10.6.2).
#[derive(Clone, Copy, Debug, PartialEq, Eq)]
pub struct AllowShortcuts(
    /// Whether it may.
    pub bool,
);
