//! The program: words, bytes in, bytes out, links, a status.
//!
//! Call `gribi_main` with the words behind the program's name; its contract says what each status means, in the words of
//! `gribi_words`, of `apply_path` and of `serve_command`. `ReaderSource` and `WriterSink` are a source over any reader and a sink
//! over any writer (`specs/Adapters.antt`), and `SystemClock` is the system's clock.
//!
//! ```ignore
//! let mut input = ReaderSource::new(rt.reader());
//! let mut output = WriterSink::new(io::writer(&rt));
//! let mut acceptor = TcpAcceptor::new(&rt, alloc, true);
//! let status = gribi_main(&rt, alloc, &words, &mut input, &mut output, &mut acceptor, &mut devices, &mut clock);
//! ```
#![tactic(auto)]

mod adapters;
mod clock;
mod program;

pub use adapters::{ReaderSource, WriterSink};
pub use clock::SystemClock;
pub use program::gribi_main;
