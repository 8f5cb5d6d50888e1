// What holds of every response and of every link; nothing runs.
ghost use Rattle.std.specs.Prelude.{◌≡◌, ◌≢◌, ◌++◌, ℕ, List, [], None, false, true};
ghost use Rattle.h2_frame.specs.Readings.{Partial, reading_of};
ghost use Rattle.h2_link.specs.declared.news.LinkNews.{LinkNews};
ghost use Rattle.grpc_link.specs.Links.{GrpcSeen, found, link_received, news_by, reader_by, reader_in, reported_of, without};
ghost use Rattle.grpc_link.specs.Readers.{reader_for, stepped};
ghost use Rattle.grpc_link.specs.Response.{Response, gained, handled, is_over, seen_by};

/// A reader that keeps no message reports just what the response on its stream gains, and is then the reader of the longer
/// response; and a response that is over gains nothing.
pub fn news_are_what_responses_gain()
    ensures news { (limit tag : ℕ) (r : Response) (n : LinkNews) → is_over r ≡ false →
        (stepped (reader_for limit r) tag n).news ≡ gained limit tag (seen_by n) r (handled limit r n) }
    ensures over { (limit tag : ℕ) (r : Response) (n : LinkNews) → is_over r ≡ true → (stepped (reader_for limit r) tag n).news ≡ [] }
    ensures reader { (limit tag : ℕ) (r : Response) (n : LinkNews) →
        (stepped (reader_for limit r) tag n).reader ≡ reader_for limit (handled limit r n) }
{}

/// What a link reports does not depend on how its bytes are cut: what a piece shows, it shows whatever follows it, and a piece
/// that shows nothing reports nothing and goes into what the next one shows.
pub fn pieces_join()
    ensures stays { (g : GrpcSeen) (prefix more : List ℕ) → reading_of (g.link.rest ++ prefix) ≢ Partial → link_received g (prefix ++ more) ≡ link_received g prefix }
    ensures goes_on { (g : GrpcSeen) (prefix more : List ℕ) → reading_of (g.link.rest ++ prefix) ≡ Partial → link_received g (prefix ++ more) ≡ link_received (link_received g prefix).link more }
    ensures nothing { (g : GrpcSeen) (prefix : List ℕ) → reading_of (g.link.rest ++ prefix) ≡ Partial → (link_received g prefix).news ≡ [] }
{}

/// What the link reports of one tag is reported by the reader of that tag, and leaves every other reader as it was.
pub fn tags_are_kept_apart()
    ensures news { (g : GrpcSeen) (tag : ℕ) (n : LinkNews) → (reported_of g tag n (found tag g.readers)).news ≡ news_by tag n (reader_in tag g.readers) }
    ensures own { (g : GrpcSeen) (tag : ℕ) (n : LinkNews) → reader_in tag (without tag g.readers) ≡ None →
        reader_in tag (reported_of g tag n (found tag g.readers)).link.readers ≡ reader_by tag n (reader_in tag g.readers) }
    ensures others { (g : GrpcSeen) (tag other : ℕ) (n : LinkNews) → tag ≢ other →
        reader_in other (reported_of g tag n (found tag g.readers)).link.readers ≡ reader_in other g.readers }
{}
