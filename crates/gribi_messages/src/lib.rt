//! The messages of gRIBI, read from bytes and written as bytes, over a numbering.
//!
//! Begin with [`decode_modify`] and [`encode_modify_response`]; each message has a file in `specs/` for what its bytes
//! say and how it is spelled (`Request`, `Response`, `Rows` and their like).
//!
//! ```
//! let request = decode_modify(alloc, &numbering, bytes)?;
//! ```
#![tactic(auto)]

mod asks;
mod decode;
mod flush;
mod get;
mod instance;
mod laws;
mod lists;
mod pieces;
mod read_response;
mod request;
mod response;
mod rows;
mod scanned;
mod write_request;
mod writers;

pub use aft_entries::{Name, Op, RawEntry, RawOperation};
pub use asks::{FlushAsk, FlushRequest, FlushResponse, GetRequest, InstanceAsk};
pub use decode::{
    IndexOnlyHop, decode_modify, header_of, index_only_hop, operation_of, scan_operation,
    scanned_operation,
};
pub use flush::{decode_flush, decode_flush_response, encode_flush_request, encode_flush_response};
pub use get::{decode_get, encode_get_request};
pub use laws::{
    flush_request_is_read_again, flush_response_is_read_again, get_request_is_read_again,
    get_response_is_read_again, modify_request_is_read_again, modify_response_is_read_again,
};
pub use lists::{AftResults, RawOperations};
pub use pieces::OperationReader;
pub use proto_schema::MessageFault;
pub use read_response::decode_modify_response;
pub use request::{ModifyRequest, RawParams};
pub use response::{
    AftResult, ModifyResponse, append_modify_response, append_result_response,
    encode_modify_response,
};
pub use rows::{GetResponse, RawRow, RawRows, decode_get_response, encode_get_response};
pub use scanned::{ScannedFields, scan_fields};
pub use write_request::encode_modify_request;
