// The static table.
ghost use Rattle.std.specs.Prelude.{◌≡◌, map, option_map, slice_get};
ghost use Rattle.h2_hpack.specs.StaticTable.{field_of, static_table};

/// The entries of RFC 7541, appendix A: the one at place 0 has the index 1.
static ENTRIES: [(&str, &str); 61] = [
    (":authority", ""),
    (":method", "GET"),
    (":method", "POST"),
    (":path", "/"),
    (":path", "/index.html"),
    (":scheme", "http"),
    (":scheme", "https"),
    (":status", "200"),
    (":status", "204"),
    (":status", "206"),
    (":status", "304"),
    (":status", "400"),
    (":status", "404"),
    (":status", "500"),
    ("accept-charset", ""),
    ("accept-encoding", "gzip, deflate"),
    ("accept-language", ""),
    ("accept-ranges", ""),
    ("accept", ""),
    ("access-control-allow-origin", ""),
    ("age", ""),
    ("allow", ""),
    ("authorization", ""),
    ("cache-control", ""),
    ("content-disposition", ""),
    ("content-encoding", ""),
    ("content-language", ""),
    ("content-length", ""),
    ("content-location", ""),
    ("content-range", ""),
    ("content-type", ""),
    ("cookie", ""),
    ("date", ""),
    ("etag", ""),
    ("expect", ""),
    ("expires", ""),
    ("from", ""),
    ("host", ""),
    ("if-match", ""),
    ("if-modified-since", ""),
    ("if-none-match", ""),
    ("if-range", ""),
    ("if-unmodified-since", ""),
    ("last-modified", ""),
    ("link", ""),
    ("location", ""),
    ("max-forwards", ""),
    ("proxy-authenticate", ""),
    ("proxy-authorization", ""),
    ("range", ""),
    ("referer", ""),
    ("refresh", ""),
    ("retry-after", ""),
    ("server", ""),
    ("set-cookie", ""),
    ("strict-transport-security", ""),
    ("transfer-encoding", ""),
    ("user-agent", ""),
    ("vary", ""),
    ("via", ""),
    ("www-authenticate", ""),
];

/// The name and the value of an entry of the static table by its place.
#[tactic(auto, unfolding(crate::specs::StaticTable::static_table))]
pub(crate) fn static_entry(place: u64) -> Option<(&'static str, &'static str)>
    ensures { option_map (λ x. field_of x.0.now x.1.now) result ≡ slice_get static_table place }
{
    entry_at(&ENTRIES, place)
}

/// The entry at a place of a table.
fn entry_at(
    entries: &[(&'static str, &'static str)],
    place: u64,
) -> Option<(&'static str, &'static str)>
    ensures { option_map (λ x. field_of x.0.now x.1.now) result ≡ slice_get (map (λ x. field_of x.0.now x.1.now) entries.now) place }
{
    entries.get(place as usize).copied()
}
