//! Tables of EN 300 468, written and read, and their content.
mod loops;
mod tables;
mod texts;
mod times;
