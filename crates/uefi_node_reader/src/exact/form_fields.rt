//! The start of a form and the fields after it, read in a notation.
#![tactic(auto)]

ghost use Rattle.std.specs.Prelude.{◌≡◌, IsTrue, length, map};
ghost use Rattle.std.specs.List.{list_all};
ghost use Rattle.std.specs.Result.{result_map_both};
ghost use Rattle.uefi_device_nodes.specs.Rows.{as_form, as_piece, is_within};
ghost use Rattle.uefi_node_reader.specs.ReadViews.{filled_with};
ghost use Rattle.uefi_node_reader.specs.Notations.{head_in, piece_in, pieces_in};
ghost use Rattle.uefi_node_reader.specs.TableReading.{blank, is_read, is_sound, pieces_put};

use crate::exact::notations::{Exact, Notation};
use crate::texts::Text;
use uefi_device_nodes::node_table::rows::{Piece, Row};

/// Puts the field at the start of a text into data, and reads its ending. Returns the rest of the text.
fn read_piece<S: Notation, T: Text>(
    piece: &Piece,
    content: &mut [u8],
    text: T,
) -> Result<T, S::Fault>
    requires { IsTrue (is_within (length content.old) (as_piece piece.now)) }
    ensures { result_map_both (λ rest. (content.new, T.bytes rest)) (λ e. e) result
        ≡ piece_in S.rules (as_piece piece.now) content.old (T.bytes text) }
{
    let from = piece.place as usize;
    let to = from + piece.width as usize;
    let rest = S::value(piece, &mut content[from..to], text)?;
    S::ending(piece.ending.as_bytes(), rest)
}

/// Puts the fields at the start of a text into data, and reads their endings. Returns the rest of the text.
pub(crate) fn read_pieces<S: Notation, T: Text>(
    pieces: &[Piece],
    content: &mut [u8],
    text: T,
) -> Result<T, S::Fault>
    requires { IsTrue (list_all (is_within (length content.old)) (map as_piece pieces.now)) }
    ensures { result_map_both (λ rest. (content.new, T.bytes rest)) (λ e. e) result
        ≡ pieces_in S.rules (map as_piece pieces.now) content.old (T.bytes text) }
{
    let mut rest = text;
    for piece in pieces {
        rest = read_piece::<S, T>(piece, content, rest)?;
    }
    Ok(rest)
}

/// Puts the fields at the start of a text into data, exactly as they are printed. Returns the rest of the
/// text.
pub(crate) fn exact_pieces<T: Text>(pieces: &[Piece], content: &mut [u8], text: T) -> Option<T>
    requires { IsTrue (list_all (is_within (length content.old)) (map as_piece pieces.now)) }
    ensures { filled_with T.bytes content.new result
        ≡ pieces_put (map as_piece pieces.now) content.old (T.bytes text) }
{
    read_pieces::<Exact, T>(pieces, content, text).ok()
}

/// Puts the first fields of a form into its fixed part. Returns the rest of the text.
pub(crate) fn read_head<S: Notation, T: Text>(
    row: &Row,
    content: &mut [u8],
    text: T,
) -> Result<T, S::Fault>
    requires sound { IsTrue (is_sound (as_form row.now)) }
    requires read { IsTrue (is_read row.now.mode) }
    requires blank { content.old ≡ blank (as_form row.now) }
    ensures { result_map_both (λ rest. (content.new, T.bytes rest)) (λ e. e) result
        ≡ head_in S.rules (as_form row.now) (T.bytes text) }
{
    let rest = S::literal(row.start.as_bytes(), text)?;
    read_pieces::<S, T>(row.pieces.as_slice(), content, rest)
}
