//! Messages between nodes, and the message file: a row of records, read in three layers and written one by one.
#![tactic(auto)]

mod chain;
mod entries;
mod fault;
mod file_layer;
mod item;
mod kind;
mod layout;
mod message;
mod message_body;
mod message_layer;
mod record_layer;
mod records;
mod refusal;
mod writing;

pub use entries::Entries;
pub use fault::{FileFault, Layer, MessageFault, RecordFault, Refusal, ShortBuffer};
pub use file_layer::{MAX_FILE, MAX_MESSAGES, read_messages};
pub use item::{Entry, Item, Record};
pub use message::{MAX_SIGNATURES, Message, Signature};
pub use records::Records;
pub use refusals::Numbered;
pub use writing::write_message;
