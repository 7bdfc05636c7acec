//! Tests of gRPC calls over the connection: a client and a server carried byte by byte against each other, the bytes that a server
//! begins with, and each refusal of a call that its head or its framing decides.
#![tactic(auto)]

#[cfg(test)]
mod carried;
#[cfg(test)]
mod limits;
#[cfg(test)]
mod refusals;
#[cfg(test)]
mod sides;
