//! The notations of the texts of forms.
#![tactic(auto)]

ghost use Rattle.std.specs.Prelude.{◌≡◌, IsTrue, length};
ghost use Rattle.std.specs.Result.{result_map_both};
ghost use Rattle.uefi_device_nodes.specs.Fields.{fits_shape};
ghost use Rattle.uefi_device_nodes.specs.Rows.{as_piece};
ghost use Rattle.uefi_node_reader.specs.ReadViews.{rest_or_err};
ghost use Rattle.uefi_node_reader.specs.Notations.{Rules, exact, lenient};

use crate::errors::faults::Stop;
use crate::errors::stops::stop_at;
use crate::exact::fields::{after, read_value};
use crate::lenient::lenient_fields::{after_ending, after_literal, expected_field, value_or_spare};
use crate::texts::Text;
use uefi_device_nodes::node_table::rows::Piece;

/// A notation of texts. Each call returns the rest of the text.
pub(crate) trait Notation {
    /// Why a text is not read.
    type Fault;

    ghost rules: { Rules Self.Fault };

    /// Reads the start of a form.
    fn literal<T: Text>(literal: &[u8], text: T) -> Result<T, Self::Fault>
        ensures { rest_or_err T.bytes result
            ≡ rules.literal literal.now (T.bytes text) };

    /// Fills a buffer with the bytes of a field.
    fn value<T: Text>(piece: &Piece, found: &mut [u8], text: T) -> Result<T, Self::Fault>
        requires fits { IsTrue (fits_shape piece.now.shape (length found.old)) }
        requires width { length found.old ≡ piece.now.width }
        ensures { result_map_both (λ x. (found.new, T.bytes x)) (λ e. e) result
            ≡ rules.value (as_piece piece.now) (T.bytes text) };

    /// Reads the literal after a field.
    fn ending<T: Text>(ending: &[u8], text: T) -> Result<T, Self::Fault>
        ensures { rest_or_err T.bytes result
            ≡ rules.ending ending.now (T.bytes text) };
}

/// Texts exactly as they are printed.
pub(crate) struct Exact;

impl Notation for Exact {
    type Fault = ();

    ghost rules = { exact };

    fn literal<T: Text>(literal: &[u8], text: T) -> Result<T, ()> {
        after(literal, text).ok_or(())
    }

    fn value<T: Text>(piece: &Piece, found: &mut [u8], text: T) -> Result<T, ()> {
        read_value(piece.shape, found, text).ok_or(())
    }

    fn ending<T: Text>(ending: &[u8], text: T) -> Result<T, ()> {
        after(ending, text).ok_or(())
    }
}

/// Texts as people write them, without blanks, and in upper case except for each `x`.
pub(crate) struct Lenient;

impl Notation for Lenient {
    type Fault = Stop;

    ghost rules = { lenient };

    fn literal<T: Text>(literal: &[u8], text: T) -> Result<T, Stop> {
        after_literal(literal, text)
    }

    fn value<T: Text>(piece: &Piece, found: &mut [u8], text: T) -> Result<T, Stop> {
        match value_or_spare(piece.shape, piece.spare, found, text) {
            Some(rest) => Ok(rest),
            None => Err(stop_at(text, expected_field(piece.shape, piece.width as usize))),
        }
    }

    fn ending<T: Text>(ending: &[u8], text: T) -> Result<T, Stop> {
        after_ending(ending, text)
    }
}
