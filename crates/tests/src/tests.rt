//! A folder of tests for each layer.

mod mux;
mod stream;
mod wire;
