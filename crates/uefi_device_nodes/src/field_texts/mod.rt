//! The texts of fields: numbers and bytes in hexadecimal, GUIDs, EISA IDs, IP addresses and texts, as the
//! UEFI Specification 2.10, section 10.6.1, and EDK II print them. Each call puts one of them into a
//! [`TextSink`](uefi_text::TextSink). No call allocates.

#[doc(hidden)]
pub mod field_laws;
pub mod forms;
pub mod guid;
#[doc(hidden)]
pub mod hexadecimal;
#[doc(hidden)]
pub mod ids;
#[doc(hidden)]
pub mod shown_texts;
#[doc(hidden)]
pub mod vendor_names;
