//! Readers and writers that fail in mid-stream, and counted devices: each call is passed on exactly once, as no
//! contract over any device can say.

mod failing;
mod scripted;
