//! Values worked by hand, and streams of other programs.

mod choice;
mod coding;
mod demultiplexing;
mod descriptors;
mod frames;
mod packets;
mod units;
mod video_buffers;
