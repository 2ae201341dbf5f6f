//! The table of node types: their numbers, their fields and the forms of their texts, and the printing of
//! nodes by the table.

pub mod layouts;
pub mod packed;
pub mod parts;
mod pools;
pub mod printing;
pub mod rows;
pub mod table;
pub mod table_laws;
pub mod word_lists;
pub mod words;
