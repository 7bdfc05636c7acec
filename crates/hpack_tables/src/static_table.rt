ghost use Rattle.std.specs.Prelude.{◌≡◌, ◌<◌, length, map, slice_get};
ghost use Rattle.hpack_tables.specs.StaticTable.{field, static_table};

use crate::field::Field;

static STATIC_TABLE: [(&[u8], &[u8]); 61] = [
    (b":authority", b""),
    (b":method", b"GET"),
    (b":method", b"POST"),
    (b":path", b"/"),
    (b":path", b"/index.html"),
    (b":scheme", b"http"),
    (b":scheme", b"https"),
    (b":status", b"200"),
    (b":status", b"204"),
    (b":status", b"206"),
    (b":status", b"304"),
    (b":status", b"400"),
    (b":status", b"404"),
    (b":status", b"500"),
    (b"accept-charset", b""),
    (b"accept-encoding", b"gzip, deflate"),
    (b"accept-language", b""),
    (b"accept-ranges", b""),
    (b"accept", b""),
    (b"access-control-allow-origin", b""),
    (b"age", b""),
    (b"allow", b""),
    (b"authorization", b""),
    (b"cache-control", b""),
    (b"content-disposition", b""),
    (b"content-encoding", b""),
    (b"content-language", b""),
    (b"content-length", b""),
    (b"content-location", b""),
    (b"content-range", b""),
    (b"content-type", b""),
    (b"cookie", b""),
    (b"date", b""),
    (b"etag", b""),
    (b"expect", b""),
    (b"expires", b""),
    (b"from", b""),
    (b"host", b""),
    (b"if-match", b""),
    (b"if-modified-since", b""),
    (b"if-none-match", b""),
    (b"if-range", b""),
    (b"if-unmodified-since", b""),
    (b"last-modified", b""),
    (b"link", b""),
    (b"location", b""),
    (b"max-forwards", b""),
    (b"proxy-authenticate", b""),
    (b"proxy-authorization", b""),
    (b"range", b""),
    (b"referer", b""),
    (b"refresh", b""),
    (b"retry-after", b""),
    (b"server", b""),
    (b"set-cookie", b""),
    (b"strict-transport-security", b""),
    (b"transfer-encoding", b""),
    (b"user-agent", b""),
    (b"vary", b""),
    (b"via", b""),
    (b"www-authenticate", b""),
];

fn pair_at(table: &[(&'static [u8], &'static [u8])], place: usize) -> (&'static [u8], &'static [u8])
    requires { place < length table.now }
    ensures { slice_get (map (λ p. field p.0.now p.1.now) table.now) place ≡ Some (field result.0.now result.1.now) }
{
    table[place]
}

/// The name and the value at a place of the static table, from 0 on.
pub fn static_pair(place: u32) -> (&'static [u8], &'static [u8])
    requires { place < 61 }
    ensures { slice_get static_table place ≡ Some (field result.0.now result.1.now) }
{
    pair_at(&STATIC_TABLE, place as usize)
}

/// The entry at a place of the static table, from 0 on.
pub fn static_field(place: u32) -> Field
    requires { place < 61 }
    ensures { slice_get static_table place ≡ Some result }
{
    let (name, value) = static_pair(place);
    Field::from_static(name, value)
}
