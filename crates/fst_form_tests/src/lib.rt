//! Tests of the forms: fields, symbol tables, the text form, the binary form with and without symbol tables, and codices.
//!
//! The crate has nothing but tests, and no other crate stands on it. A test is a table of texts or bytes, with what
//! they are or the first fault that they have. All were written out by hand from the forms.
#![tactic(auto)]

#[cfg(test)]
mod binary;
#[cfg(test)]
mod bytes;
#[cfg(test)]
mod codex_files;
#[cfg(test)]
mod codices;
#[cfg(test)]
mod fields;
#[cfg(test)]
mod numbers;
#[cfg(test)]
mod symbols;
#[cfg(test)]
mod tables_in_files;
#[cfg(test)]
mod texts;
