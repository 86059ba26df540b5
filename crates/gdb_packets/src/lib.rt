//! Packets of GDB's remote protocol: the bytes of a debugger are taken one by one, a packet's
//! content is read as what it asks for, and the content of an answer is put into a frame. What a
//! packet does to a run is no part of it. Nothing here takes memory.
#![tactic(auto)]

mod arrival;
mod hex_bytes;
mod law;
mod number;
mod packet;
mod parsing;
mod place;
mod receiver;
mod reply;
#[cfg(test)]
mod tests;

pub use arrival::Arrival;
pub use hex_bytes::HexBytes;
pub use law::frame_is_received;
pub use packet::{CONTENT_LIMIT, Packet, Point, PointKind};
pub use parsing::parse;
pub use receiver::Receiver;
pub use reply::{Frame, Reply};
