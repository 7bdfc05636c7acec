//! The run of `apply`: a stream of requests is answered as the one-thread server answers it.
//!
//! Call `apply_stream`. Its contract is in `specs/Applied.antt`, over the words of `message_run`: what was written for the bytes
//! taken, which status comes when, and what became of the device. What each message comes to is in `specs/Responses.antt`: its
//! commands, then the turns of the only worker, then the session collects until nothing is outstanding. `answers_match_the_server`
//! says that this is what the one-thread server answers in one row (`specs/Laws.antt`), and `output_rests_on_the_input` that a device
//! which never fails shows nowhere in it.
//!
//! ```ignore
//! let setting = Setting { numbering: default_numbering(alloc)?, instances };
//! let mut device = MemDevice::new(alloc, Vec::new(alloc));
//! let status = apply_stream(alloc, &setting, &mut input, &mut output, &mut device);
//! // 0: all of the input was read and answered; 7: a reply ended the stream, and the last item bears its status number.
//! ```
#![tactic(auto)]

mod apply;
mod handler;
mod laws;
mod session;
mod step;

pub use apply::apply_stream;
pub use laws::{answers_match_the_server, histories_are_lawful, output_rests_on_the_input};
pub use message_run::write_all;
