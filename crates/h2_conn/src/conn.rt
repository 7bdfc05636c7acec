ghost use Rattle.std.specs.Prelude.{◌≤◌, length};

use crate::watch::Watch;
use h2_exchange::{CalmCause, H2Limits, Role};
use h2_frames::{ErrorCode, FrameReader};
use h2_streams::StreamSet;
use hpack_tables::{HeaderDecoder, HeaderEncoder};
use std::alloc::Global;

mod begins;
mod blocks;
mod connection_impl;
mod crediting;
mod hearing;
mod sending;
mod taking;

/// Why a connection says nothing else any more.
#[derive(Clone, Copy, Debug)]
pub enum Why {
    Broken(ErrorCode, u64),
    Calm(CalmCause),
    NoMemory,
}

/// The header block that is being received: its stream, whether it ends its side, and how many frames it has so far.
#[derive(Clone, Copy, Debug)]
pub struct Opened {
    pub stream: u32,
    pub last: bool,
    pub frames: u32,
}

/// A connection of HTTP/2.
#[derive(Drop)]
pub struct H2Conn {
    alloc: Global,
    role: Role,
    limits: H2Limits,
    reader: FrameReader,
    place: u64,
    set: StreamSet,
    decoder: HeaderDecoder,
    encoder: HeaderEncoder,
    out: Vec<u8>,
    start: usize,
    text: Vec<u8>,
    opened: Option<Opened>,
    ended: Option<u32>,
    is_holding: bool,
    watch: Watch,
    refusal: Option<Why>,
    ghost in_range: { start ≤ length out.items },
}
