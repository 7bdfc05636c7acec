//! What is kept of a call while its stream lives.
ghost use Rattle.std.specs.Prelude.{◌≡◌, ◌<◌, ◌≤◌, ◌^◌, ◌++◌, OnOk, OnErr, length, drop, sum_by};
ghost use Rattle.grpc_framing.specs.Framing.{item};
ghost use Rattle.hpack_tables.specs.EntrySizes.{size_of};

use bytes::{Bytes, BytesMut};
use grpc_framing::{Cut, MessageCutter};
use hpack_tables::Fields;
use std::alloc::{AllocError, Global};

/// The most bytes of a message that is taken.
pub const MESSAGE_LIMIT: u32 = 4194304;

/// Whether what a peer sends on a stream is listened to.
#[derive(Clone, Copy, Debug, PartialEq, Eq)]
pub enum Receiving {
    /// Its messages are cut.
    Open,
    /// It was refused, or nothing more is told of it.
    Closed,
}

/// How this side of a stream ends.
#[derive(Clone, Copy, Debug, PartialEq, Eq)]
pub enum Ending {
    /// Its end was not taken.
    Open,
    /// One header block, head and trailers.
    Block,
    /// Trailers behind the messages.
    Trailers,
    /// The end of the last DATA.
    HalfClose,
    /// Its end was sent.
    Sent,
}

/// A call: what its peer sent and is not cut yet, and what is to be sent.
#[derive(Drop)]
pub struct Call {
    pub stream: u32,
    pub receiving: Receiving,
    pub cutter: MessageCutter,
    // the framed messages that no DATA holds yet
    pub unsent: BytesMut,
    pub has_message: bool,
    pub has_head: bool,
    pub ending: Ending,
    // the last header block of this side, until it is sent
    pub fields: Fields,
    // no list that is longer may be sent
    ghost fits: { sum_by size_of fields ≤ 65536 },
}

impl Call {
    ghost use Rattle.kept_calls.specs.CallState.{began, closed_by, ended, refused_by, state_of, stopped, with_message, with_piece, with_unsent};

    /// A call of which nothing came and nothing is to be sent.
    pub fn new(alloc: Global, stream: u32, receiving: Receiving, has_head: bool) -> Call
        ensures { state_of result ≡ began stream receiving has_head }
    {
        Call {
            stream,
            receiving,
            cutter: MessageCutter::new(alloc, MESSAGE_LIMIT),
            unsent: BytesMut::new(alloc),
            has_message: false,
            has_head,
            ending: Ending::Open,
            fields: Fields::new(alloc),
        }
    }

    /// Whether its end was taken.
    pub fn is_ended(&self) -> bool
        ensures { result ≡ ended self.now.ending }
    {
        match self.ending {
            Ending::Open => false,
            Ending::Block => true,
            Ending::Trailers => true,
            Ending::HalfClose => true,
            Ending::Sent => true,
        }
    }

    /// Frames a message that is to be sent.
    pub fn push(&mut self, message: &[u8]) -> Result<(), AllocError>
        requires { length message.now < 2 ^ 32 }
        ensures ok { OnOk result (state_of self.new ≡ with_message message.now (state_of self.old)) }
        ensures err { OnErr result (state_of self.new ≡ state_of self.old) }
    {
        match push_framed(&mut self.unsent, message) {
            Ok(()) => {
                self.has_message = true;
                Ok(())
            }
            Err(error) => Err(error),
        }
    }

    /// Takes its end, with the last header block that says it, which may have at most 65,536 bytes as RFC 7541, section 4.1,
    /// counts them.
    pub fn close(&mut self, ending: Ending, fields: Fields)
        requires { sum_by size_of fields ≤ 65536 }
        ensures { state_of self.new ≡ closed_by ending fields (state_of self.old) }
    {
        self.ending = ending;
        self.fields = fields;
    }

    /// Refuses it: nothing more is heard of it, and it ends so unless it has an end.
    pub fn refuse(&mut self, ending: Ending, fields: Fields)
        requires { sum_by size_of fields ≤ 65536 }
        ensures { state_of self.new ≡ refused_by ending fields (state_of self.old) }
    {
        self.receiving = Receiving::Closed;
        if !self.is_ended() {
            self.close(ending, fields);
        }
    }

    /// Nothing more is heard of it.
    pub fn stop(&mut self)
        ensures { state_of self.new ≡ stopped (state_of self.old) }
    {
        self.receiving = Receiving::Closed;
    }

    /// Takes bytes that its peer sent.
    pub fn feed(&mut self, piece: Bytes) -> Result<(), AllocError>
        ensures ok { OnOk result (state_of self.new ≡ with_piece piece (state_of self.old)) }
        ensures err { OnErr result (state_of self.new ≡ state_of self.old) }
    {
        self.cutter.feed(piece)
    }

    /// Drops bytes that a DATA holds.
    pub fn advance(&mut self, n: usize)
        requires { n ≤ length self.old.unsent.items }
        ensures { state_of self.new ≡ with_unsent (drop n self.old.unsent.items) (state_of self.old) }
    {
        self.unsent.advance(n)
    }
}

fn push_framed(out: &mut BytesMut, message: &[u8]) -> Result<(), AllocError>
    requires { length message.now < 2 ^ 32 }
    ensures ok { OnOk result (out.new.items ≡ out.old.items ++ item message.now) }
    ensures err { OnErr result (out.new.items ≡ out.old.items) }
{
    out.reserve(5 + message.len())?;
    let size = (message.len() as u32).to_be_bytes();
    out.extend_reserved([0, size[0], size[1], size[2], size[3]].as_slice());
    out.extend_reserved(message);
    Ok(())
}
