//! The engine that decides many traces of one text: what is written for each piece, over devices that fail.

mod batches;
mod objects;
