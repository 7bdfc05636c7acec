use hpack_tables::{Field, Fields};
use std::alloc::{AllocError, Global};

/// A name and a value.
pub type Pair = (&'static [u8], &'static [u8]);

/// Fields of static bytes.
pub fn fields_of(alloc: Global, pairs: &[Pair]) -> Result<Fields, AllocError> {
    let mut fields = Fields::new(alloc);
    for (name, value) in pairs {
        fields.push(Field::from_static(name, value))?;
    }
    Ok(fields)
}

/// The fields as text, `name=value;` each.
pub fn shown(alloc: Global, fields: &Fields) -> Result<Vec<u8>, AllocError> {
    let mut text = Vec::new(alloc);
    for field in fields.as_slice() {
        text.extend_from_slice(field.name.as_slice())?;
        text.extend_from_slice(b"=")?;
        text.extend_from_slice(field.value.as_slice())?;
        text.extend_from_slice(b";")?;
    }
    Ok(text)
}
