use bytes::Bytes;

/// A header field. Its name and value are the bytes that were written, whatever they are.
#[derive(Debug, Drop)]
pub struct Field {
    /// The name, where a pseudo field's begins with a colon.
    pub name: Bytes,
    /// The value.
    pub value: Bytes,
}

pub mod malformed;
mod marks;
mod parts;
