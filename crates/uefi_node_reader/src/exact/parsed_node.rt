//! Nodes that were read from texts. Their data is decoded when it is written, so reading does not allocate.
#![tactic(auto, unfolding(crate::specs::ParsedNodeViews::parsed_node))]

ghost use Rattle.std.specs.List.{list_all};
ghost use Rattle.std.specs.Option.{option_and_then, option_map};
ghost use Rattle.std.specs.Prelude.{◌≡◌, ◌≤◌, ◌++◌, ◌∷◌, [], IfSome, IsTrue, true, drop, if◌then◌else◌, length, map, nat_le, take, None, Some};
ghost use Rattle.uefi_node_reader.specs.ReadViews.{read_as};
ghost use Rattle.uefi_node_reader.specs.FieldReading.{clear_run};
ghost use Rattle.uefi_node_reader.specs.ParsedNodeViews.{TextNode, text_node_data, parsed_node};
ghost use Rattle.uefi_device_nodes.specs.Rows.{as_piece, is_within};
ghost use Rattle.uefi_node_reader.specs.TableReading.{added, as_ids, first_of, followed, pieces_put, tail_read};
ghost use Rattle.uefi_node_reader.specs.DataForms.{coded_tail};
ghost use Rattle.uefi_node_reader.specs.ParsedNodes.{IsDecoded, all_data, fitting};

use crate::counted_bytes::push_all;
use crate::exact::clear_texts::first_of;
use crate::exact::data_form::DataForm;
use crate::exact::form_fields::exact_pieces;
use crate::exact::node_tails::{push_tail, push_uid};
use crate::texts::Text;
use std::marker::Model;
use uefi_device_nodes::node_table::rows::{Piece, Tail};

/// A node that was read from a call. A contract sees its types, the number of its fixed bytes, and its data.
/// Its numbers are small so that a move does not call `memcpy`, which firmware lacks.
#[derive(Drop)]
pub struct ParsedNode<T: Text> {
    device_type: u8,
    sub_type: u8,
    head: [u8; 56],
    fixed: u8,
    data_form: DataForm,
    /// The first byte of what closes the data.
    stop: u8,
    len: u16,
    text: T,
}

impl<T: Text> Model for ParsedNode<T> {
    ghost Value = { TextNode };

    ghost view = { λ n. record {
      device_type = n.device_type;
      sub_type = n.sub_type;
      fixed = n.fixed;
      content = all_data n.head n.fixed (coded_tail n.data_form) (n.stop ∷ []) (T.bytes n.text);
    } };

    ghost invariant = { λ n. IsDecoded n.head n.fixed n.len (coded_tail n.data_form) (n.stop ∷ [])
        (T.bytes n.text) };
}

impl<T: Text> ParsedNode<T> {
    /// Returns the node with these fixed bytes, and the data that a tail reads at the start of a text, up to
    /// `close`. Returns the rest of the text too.
    pub(crate) fn with_tail(
        device_type: u8,
        sub_type: u8,
        fixed_bytes: [u8; 56],
        fixed: usize,
        tail: Tail,
        close: &'static str,
        text: T,
    ) -> Option<(Self, T)>
        requires { fixed ≤ 56 }
        ensures types { IfSome result (λ x. (x.0.device_type ≡ device_type) × (x.0.sub_type ≡ sub_type)) }
        ensures fixed { IfSome result (λ x. x.0.fixed ≡ fixed) }
        ensures data { read_as text_node_data T.bytes result
            ≡ fitting (option_and_then (added (take fixed fixed_bytes))
            (tail_read tail close.now (T.bytes text))) }
    {
        let stop = first_of(close.as_bytes());
        let mut head = fixed_bytes;
        let (len, rest) = push_tail(tail, &[stop], &mut head, fixed, text)?;
        if 0xfffb < len {
            return None;
        }
        let node = ParsedNode {
            device_type,
            sub_type,
            head,
            fixed: fixed as u8,
            data_form: DataForm::of(tail),
            stop,
            text,
            len: len as u16,
        };
        Some((node, rest))
    }

    /// Returns the node with more fields of its fixed part, which are read at the start of a text, and
    /// the rest of the text.
    pub(crate) fn with_fields(self, pieces: &[Piece], text: T) -> Option<(Self, T)>
        requires { IsTrue (list_all (is_within self.fixed) (map as_piece pieces.now)) }
        ensures types { IfSome result (λ x.
            (x.0.device_type ≡ self.device_type) × (x.0.sub_type ≡ self.sub_type)) }
        ensures data { read_as text_node_data T.bytes result
            ≡ option_and_then (followed (drop self.fixed (text_node_data self)))
            (pieces_put (map as_piece pieces.now)
            (take self.fixed (text_node_data self)) (T.bytes text)) }
    {
        let mut head = self.head;
        let rest = exact_pieces(pieces, &mut head[..usize::from(self.fixed)], text)?;
        let node = ParsedNode {
            device_type: self.device_type,
            sub_type: self.sub_type,
            head,
            fixed: self.fixed,
            data_form: self.data_form,
            stop: self.stop,
            text: self.text,
            len: self.len,
        };
        Some((node, rest))
    }

    /// Returns the node with these fixed bytes and three strings of IDs. The second string is read at
    /// the start of a text, up to `close`; the others are empty.
    pub(crate) fn with_uid(
        device_type: u8,
        sub_type: u8,
        fixed_bytes: [u8; 56],
        fixed: usize,
        close: &'static str,
        text: T,
    ) -> Option<Self>
        requires { fixed ≤ 56 }
        ensures types { IfSome result (λ x. (x.device_type ≡ device_type) × (x.sub_type ≡ sub_type)) }
        ensures data { option_map text_node_data result
            ≡ option_map (λ x. x.0) (fitting (Some (
              take fixed fixed_bytes
                  ++ as_ids [] [] (clear_run (first_of close.now) (T.bytes text)).0,
              [],
            ))) }
    {
        let stop = first_of(close.as_bytes());
        let mut head = fixed_bytes;
        let len = push_uid(&mut head, fixed, stop, text);
        if 0xfffb < len {
            return None;
        }
        Some(ParsedNode {
            device_type,
            sub_type,
            head,
            fixed: fixed as u8,
            data_form: DataForm::Uid,
            stop,
            text,
            len: len as u16,
        })
    }

    /// Returns the type and the sub-type.
    pub fn types(&self) -> (u8, u8)
        ensures device_type { result.0 ≡ (parsed_node self.now).device_type }
        ensures sub_type { result.1 ≡ (parsed_node self.now).sub_type }
    {
        (self.device_type, self.sub_type)
    }

    /// Returns the number of bytes of data.
    pub fn data_len(&self) -> usize
        ensures count { result ≡ length (parsed_node self.now).content }
        ensures fits { result ≤ 0xfffb }
    {
        usize::from(self.len)
    }

    /// Returns the first bytes of the data, at most 56.
    pub(crate) fn head(&self) -> &[u8]
        ensures { result.now ≡ take 56 (parsed_node self.now).content }
    {
        if self.len < 56 {
            return &self.head[..usize::from(self.len)];
        }
        &self.head
    }

    /// Writes the data to a buffer of the same length.
    pub fn write_data(&self, bytes: &mut [u8])
        requires { length bytes.old ≡ length (parsed_node self.now).content }
        ensures { bytes.new ≡ (parsed_node self.now).content }
    {
        let len = push_all(bytes, 0, &self.head[..usize::from(self.fixed)]);
        match self.data_form.tail() {
            Some(tail) => {
                let _ = push_tail(tail, &[self.stop], bytes, len, self.text);
            }
            None => {
                push_uid(bytes, len, self.stop, self.text);
            }
        }
    }
}
