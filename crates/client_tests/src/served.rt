//! A client whose bytes are served at once, over links in memory.
use aft_entries::Instances;
use call_answers::Setting;
use compliance_client::{ClientConn, ClientOver, ClientTurn};
use grpc_calls::Calls;
use h2_conn::H2Conn;
use rib_core::RibCore;
use rig_io::{MemLink, StepClock};
use schema_numbers::{Numbering, default_numbering};
use server_conn::serve_link;
use std::alloc::Global;
use std::sync::Wait;
use std::test::Fail;
use table_lock::TableLock;
use table_model::Config;

const ONE: Config = Config {
    instances: 1,
    workers: 1,
    limit: 100,
};

pub(crate) type Client = ClientConn<Calls<H2Conn>>;

/// What a server over an empty table with one instance, DEFAULT, writes to a client that sends these bytes and ends.
pub(crate) fn answers<R: Wait>(rt: &R, alloc: Global, bytes: &[u8]) -> Result<MemLink, Fail> {
    let mut names = Vec::new(alloc);
    names.push(String::from_str(alloc, "DEFAULT")?)?;
    let setting = Setting {
        numbering: default_numbering(alloc)?,
        instances: Instances::new(names)?,
    };
    let (lock, mut pass) = TableLock::new(alloc, RibCore::new(alloc, ONE)?)?;
    let mut link = MemLink::new(alloc, Vec::new(alloc));
    link.feed(bytes)?;
    link.end_input();
    let mut clock = StepClock::new(3);
    let _ = serve_link(rt, alloc, &lock, &mut pass, &mut link, &setting, &mut clock);
    Ok(link)
}

/// How turns of a client ended that were taken until one was no Progress.
#[derive(Clone, Copy, Debug, PartialEq, Eq)]
pub(crate) enum End {
    Idle,
    Ended,
    ReadFault,
    WriteFault,
    Protocol(u32, u64),
    Other,
}

fn end_of(over: ClientOver) -> End {
    match over {
        ClientOver::Ended => End::Ended,
        ClientOver::ReadFault => End::ReadFault,
        ClientOver::WriteFault => End::WriteFault,
        ClientOver::Protocol(why, place) => End::Protocol(why.0, place),
        _ => End::Other,
    }
}

pub(crate) fn turns(client: &mut Client, n: &Numbering, link: &mut MemLink) -> End {
    for _ in 0..1000 {
        match client.turn(n, link) {
            ClientTurn::Progress => {}
            ClientTurn::Idle => return End::Idle,
            ClientTurn::Over(over) => return end_of(over),
        }
    }
    End::Other
}
