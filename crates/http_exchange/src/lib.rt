//! One exchange of HTTP/1.1 (RFC 9112) over a reader, a writer and a handler that answers what is asked.
#![tactic(auto)]

mod body;
mod exchanges;
mod handler;
mod receiving;
mod sending;

pub use exchanges::{Served, exchange};
pub use handler::{Handler, HandlerFault, Request, Response};
pub use sending::ChannelFault;
