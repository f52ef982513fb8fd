use crate::reader_source::ReaderSource;
use crate::writer_sink::WriterSink;
use std::io::{Stdin, Stdout};

/// Standard input. It doesn't tell what it holds.
pub type StdSource = ReaderSource<Stdin>;

/// Standard output, written through. It doesn't tell what it took.
pub type StdSink = WriterSink<Stdout>;
