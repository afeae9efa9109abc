//! What stands between the values of a JSON output; `typed` and `stat_typed` print it.

ghost use Rattle.std.specs.Prelude.{◌≡◌};
ghost use Rattle.tcp_stats.specs.JsonParts.{part_text};

/// A piece of an object of JSON.
#[derive(Clone, Copy)]
pub(crate) enum JsonPart {
    /// Before what a row tells of.
    Kind,
    /// Before the number of the server.
    Proxy,
    /// Before a place.
    Place,
    /// Before a name.
    Name,
    /// Before the tags.
    Tags,
    /// Before a type.
    Type,
    /// Before a value.
    Value,
}

impl JsonPart {
    /// Its text.
    #[tactic(auto, unfolding(crate::specs::JsonParts::part_text))]
    pub(crate) fn text(self) -> &'static str
        ensures { result.now ≡ part_text self }
    {
        match self {
            JsonPart::Kind => "{\"objType\":\"",
            JsonPart::Proxy => "\",\"proxyId\":2,\"id\":",
            JsonPart::Place => "\"field\":{\"pos\":",
            JsonPart::Name => ",\"name\":\"",
            JsonPart::Tags => "\"},\"processNum\":1,\"tags\":",
            JsonPart::Type => ",\"value\":{\"type\":\"",
            JsonPart::Value => "\",\"value\":",
        }
    }
}
