// The reader of order batches. docs/FORMATS.md has the layout.
#![tactic(auto)]

pub mod fields;
pub mod placed;
pub mod reader;
pub mod record;
pub mod request;
#[cfg(test)]
mod tests;
pub mod unread;
pub mod whole;
