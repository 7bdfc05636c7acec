//! The connections of a server, of which only so many can be made.
use gribi_serve::MakesConnection;
use grpc_calls::Calls;
use h2_conn::H2Conn;
use h2_exchange::Role;
use server_conn::{LIMITS, ServerConn};
use std::alloc::{AllocError, Global};

/// A connection over HTTP/2.
pub(crate) type Connection = ServerConn<Calls<H2Conn>>;

/// Makes so many connections, and then finds no memory.
#[derive(Drop)]
pub(crate) struct Maker {
    pub alloc: Global,
    pub left: u32,
}

impl MakesConnection<Connection> for Maker {
    fn make(&mut self) -> Result<Connection, AllocError> {
        if self.left == 0 {
            return Err(AllocError);
        }
        self.left = self.left.wrapping_sub(1);
        let conn = H2Conn::new(self.alloc, Role::Server, LIMITS)?;
        let calls = Calls::new(self.alloc, Role::Server, conn);
        Ok(ServerConn::new(self.alloc, calls))
    }
}
