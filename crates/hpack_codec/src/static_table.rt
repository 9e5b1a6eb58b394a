//! The static table (RFC 7541, appendix A).
ghost use Rattle.std.specs.Prelude.{◌≡◌, ◌<◌, length, map, slice_get, Some};
ghost use Rattle.hpack_codec.specs.StaticTable.{static_table, entry};
ghost use Rattle.hpack_codec.specs.Reading.{IsStatic};

use crate::table_match::TableMatch;
use lists::{Field, Octets};

/// How many entries there are.
pub const LEN: usize = 61;

/// A name and a value.
type Pair = (&'static [u8], &'static [u8]);

/// The names and values, the first of them at index 1.
static ENTRIES: [Pair; LEN] = [
    (b":authority", b""),
    (b":method", b"GET"),
    (b":method", b"POST"),
    (b":path", b"/"),
    (b":path", b"/index.html"),
    (b":scheme", b"http"),
    (b":scheme", b"https"),
    (b":status", b"200"),
    (b":status", b"204"),
    (b":status", b"206"),
    (b":status", b"304"),
    (b":status", b"400"),
    (b":status", b"404"),
    (b":status", b"500"),
    (b"accept-charset", b""),
    (b"accept-encoding", b"gzip, deflate"),
    (b"accept-language", b""),
    (b"accept-ranges", b""),
    (b"accept", b""),
    (b"access-control-allow-origin", b""),
    (b"age", b""),
    (b"allow", b""),
    (b"authorization", b""),
    (b"cache-control", b""),
    (b"content-disposition", b""),
    (b"content-encoding", b""),
    (b"content-language", b""),
    (b"content-length", b""),
    (b"content-location", b""),
    (b"content-range", b""),
    (b"content-type", b""),
    (b"cookie", b""),
    (b"date", b""),
    (b"etag", b""),
    (b"expect", b""),
    (b"expires", b""),
    (b"from", b""),
    (b"host", b""),
    (b"if-match", b""),
    (b"if-modified-since", b""),
    (b"if-none-match", b""),
    (b"if-range", b""),
    (b"if-unmodified-since", b""),
    (b"last-modified", b""),
    (b"link", b""),
    (b"location", b""),
    (b"max-forwards", b""),
    (b"proxy-authenticate", b""),
    (b"proxy-authorization", b""),
    (b"range", b""),
    (b"referer", b""),
    (b"refresh", b""),
    (b"retry-after", b""),
    (b"server", b""),
    (b"set-cookie", b""),
    (b"strict-transport-security", b""),
    (b"transfer-encoding", b""),
    (b"user-agent", b""),
    (b"vary", b""),
    (b"via", b""),
    (b"www-authenticate", b""),
];

/// The name and the value of an entry. The first one has the place 0.
pub fn static_entry(place: usize) -> Pair
    requires { place < LEN }
    ensures { slice_get static_table place ≡ Some (entry result.0.now result.1.now) }
{
    pair_at(&ENTRIES, place)
}

/// The field that an entry is, with no memory taken. The first one has the place 0.
pub fn static_field(place: usize) -> Field
    requires { place < LEN }
    ensures { slice_get static_table place ≡ Some result }
{
    let (name, value) = static_entry(place);
    Field {
        name: Octets::fixed(name),
        value: Octets::fixed(value),
    }
}

fn pair_at(pairs: &[Pair], place: usize) -> Pair
    requires { place < length pairs.now }
    ensures { slice_get (map (λ pair. entry pair.0.now pair.1.now) pairs.now) place
        ≡ Some (entry result.0.now result.1.now) }
{
    pairs[place]
}

/// The least index of a field, or else of its name.
pub fn find(name: &[u8], value: &[u8]) -> TableMatch
    ensures { IsStatic result name.now value.now }
{
    let mut found = TableMatch::Nothing;
    for place in 0..LEN {
        let index = place as u32 + 1;
        let (entry_name, entry_value) = static_entry(place);
        if entry_name == name {
            if entry_value == value {
                return TableMatch::Whole(index);
            }
            if let TableMatch::Nothing = found {
                found = TableMatch::Name(index);
            }
        }
    }
    found
}
