use hpack_tables::Fields;
use std::alloc::{AllocError, Global};

/// The fields as text, `name=value;` each.
pub fn shown(alloc: Global, fields: &Fields) -> Result<Vec<u8>, AllocError> {
    let mut text = Vec::new(alloc);
    for field in fields.as_slice() {
        text.extend_from_slice(field.name.as_slice())?;
        text.extend_from_slice(b"=")?;
        text.extend_from_slice(field.value.as_slice())?;
        text.extend_from_slice(b";")?;
    }
    Ok(text)
}
