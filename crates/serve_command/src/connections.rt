//! The connections of a server.
use gribi_serve::MakesConnection;
use grpc_calls::Calls;
use h2_conn::H2Conn;
use h2_exchange::Role;
use server_conn::{LIMITS, ServerConn};
use std::alloc::{AllocError, Global};

/// Makes a connection over HTTP/2 for each link.
#[derive(Drop)]
pub(crate) struct NewConnections {
    pub(crate) alloc: Global,
}

impl MakesConnection<ServerConn<Calls<H2Conn>>> for NewConnections {
    fn make(&mut self) -> Result<ServerConn<Calls<H2Conn>>, AllocError> {
        let conn = H2Conn::new(self.alloc, Role::Server, LIMITS)?;
        let calls = Calls::new(self.alloc, Role::Server, conn);
        Ok(ServerConn::new(self.alloc, calls))
    }
}
