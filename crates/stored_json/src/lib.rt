//! The texts that the book keeps of commands and replies, as JSON, and what such a text is read as.
#![tactic(auto)]

mod body;
mod command_json;
mod encoded;
mod fault;
mod field;
mod kept_text;
pub mod laws;
mod objects;
mod part;
mod parts;
mod reply_text;
mod verb;

pub use command_json::{command_of, object, read_canonical};
pub use encoded::{Encoded, array};
pub use fault::CodecFault;
pub use field::JsonField;
pub use kept_text::{canonical, instruction_value};
pub use objects::{Scalar, object_of, object_with_list};
pub use part::{JsonPart, Unread, field as json_field};
pub use reply_text::{read_reply, reply_to_json, reply_value};
