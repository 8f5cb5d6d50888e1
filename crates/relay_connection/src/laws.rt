// What holds of every connection; nothing runs.
ghost use Rattle.std.specs.Prelude.{◌≡◌, ◌<◌, ◌++◌, ◌∷◌, ℕ, Bool, List, Some};
ghost use Rattle.grpc_base.specs.declared.fields.Field.{Field};
ghost use Rattle.h2_server.specs.Received.{Receiving};
ghost use Rattle.h2_server.specs.declared.news.RequestNews.TheVariants as news;
ghost use Rattle.relay_asks.specs.Asking.{begun};
ghost use Rattle.relay_asks.specs.Laws as stream;
ghost use Rattle.relay_connection.specs.Arriving.{Arrives};
ghost use Rattle.relay_connection.specs.Laws.{Event, Receives, Rises, after, asks_for, asks_from, ended_by, moments_for};
ghost use Rattle.relay_connection.specs.Relay.{Report, fresh_relay};

/// What a piece does, and what is asked for it, does not depend on how it is cut: two pieces do what they do as one.
pub fn pieces_join()
    ensures { (x y z : Report) (prefix back : List ℕ) → Arrives x prefix y → Arrives y back z → Arrives x (prefix ++ back) z }
{}

/// Whatever happened before and happens then: from the header list on that begins a stream, the asks of that stream are those of
/// its own history, whatever other streams do. That is what `relay_asks` says of its header list, and of the moments that the events are
/// for it.
pub fn streams_are_apart()
    ensures { (before events : List Event) (h : Receiving) (number : ℕ) (fields : List Field) (end : Bool) → (after fresh_relay before).last < number → h.news ≡ Some (news.Fields number fields end) →
        asks_for number (asks_from (after fresh_relay before) (Receives h ∷ events)) ≡ (begun number fields).asks ++ stream.asks_from (begun number fields).stream (ended_by end ++ moments_for number events) }
{}

/// Whatever happened: the streams stand in the order of their numbers, so the first one that may send something is the lowest.
pub fn streams_rise()
    ensures { (before : List Event) → Rises 0 (after fresh_relay before).streams (after fresh_relay before).last }
{}
