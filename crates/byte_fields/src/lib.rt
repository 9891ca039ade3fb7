//! Bytes and their fields, read from left to right: the definitions, and one reader for each kind of field.
#![tactic(auto)]

pub mod bad_field;
pub mod field_fault;
pub mod fields;
pub mod texts;

pub use bad_field::BadField;
pub use field_fault::FieldFault;
pub use texts::is_text;
