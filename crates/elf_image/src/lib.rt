//! ELF images of 32-bit RISC-V programs: which bytes are an image for a range of RAM, what the
//! image puts there, and the bytes that hold an image.
#![tactic(auto)]

mod fault;
mod header;
mod image;
mod reader;
mod segment;
#[cfg(test)]
mod tests;
mod writer;

pub use fault::ImageFault;
pub use image::Image;
pub use reader::read;
pub use segment::{Segment, Segments};
pub use writer::write;
