//! What a value is, beside itself, as HAProxy's typed and JSON outputs say it; `info` and `column` give each value its tags.

ghost use Rattle.std.specs.Prelude.{◌≡◌, ◌++◌, OnOk};
ghost use Rattle.tcp_stats.specs.Tags as spec;
ghost use Rattle.tcp_stats.specs.Tags.{letters, json_tags};

use base_sequence::NoMemory;

/// Where a value comes from (HAProxy Management Guide 2.6, section 9.2).
#[derive(Clone, Copy, Debug, PartialEq, Eq)]
pub(crate) enum Origin {
    /// It was measured.
    Metric,
    /// It is a state.
    Status,
    /// It names what is told of.
    Key,
    /// It was configured.
    Config,
    /// It is the product's.
    Product,
}

/// What a value says.
#[derive(Clone, Copy, Debug, PartialEq, Eq)]
pub(crate) enum Nature {
    /// What goes up and down.
    Gauge,
    /// What may not be passed.
    Limit,
    /// The most there was.
    Max,
    /// What only goes up.
    Counter,
    /// So many in a second.
    Rate,
    /// A mean.
    Average,
    /// A time.
    Duration,
    Name,
    /// What is only to be read.
    Output,
}

/// Of how much a value holds.
#[derive(Clone, Copy, Debug, PartialEq, Eq)]
pub(crate) enum Scope {
    /// Of all processes that serve the same.
    Service,
    /// Of this process.
    Process,
}

/// The tags of a value.
#[derive(Clone, Copy, Debug, PartialEq, Eq)]
pub(crate) struct Tags {
    pub origin: Origin,
    pub nature: Nature,
    pub scope: Scope,
}

impl Origin {
    /// Its letter, and its word in JSON.
    fn names(self) -> (u8, &'static str)
        ensures { (result.0, result.1.now) ≡ spec.origin_names self }
    {
        match self {
            Origin::Metric => (b'M', "Metric"),
            Origin::Status => (b'S', "Status"),
            Origin::Key => (b'K', "Key"),
            Origin::Config => (b'C', "Config"),
            Origin::Product => (b'P', "Product"),
        }
    }
}

impl Nature {
    /// Its letter, and its word in JSON.
    fn names(self) -> (u8, &'static str)
        ensures { (result.0, result.1.now) ≡ spec.nature_names self }
    {
        match self {
            Nature::Gauge => (b'G', "Gauge"),
            Nature::Limit => (b'L', "Limit"),
            Nature::Max => (b'M', "Max"),
            Nature::Counter => (b'C', "Counter"),
            Nature::Rate => (b'R', "Rate"),
            Nature::Average => (b'a', "Avg"),
            Nature::Duration => (b'D', "Duration"),
            Nature::Name => (b'N', "Name"),
            Nature::Output => (b'O', "Output"),
        }
    }
}

impl Scope {
    /// Its letter, and its word in JSON.
    fn names(self) -> (u8, &'static str)
        ensures { (result.0, result.1.now) ≡ spec.scope_names self }
    {
        match self {
            Scope::Service => (b'S', "Service"),
            Scope::Process => (b'P', "Process"),
        }
    }
}

/// Appends a name and a text as a member of an object of JSON.
#[tactic(auto, unfolding(crate::specs::Tags::json_member))]
fn push_member(text: &mut Vec<u8>, name: &[u8], word: &str) -> Result<(), NoMemory>
    ensures { OnOk result (text.new.items ≡ text.old.items ++ spec.json_member name.now word.now) }
{
    text.push(b'"')?;
    text.extend_from_slice(name)?;
    text.extend_from_slice(b"\":\"")?;
    text.extend_from_slice(word.as_bytes())?;
    text.push(b'"')?;
    Ok(())
}

impl Tags {
    /// The tags of these parts.
    pub(crate) fn new(origin: Origin, nature: Nature, scope: Scope) -> Tags
        ensures { result ≡ spec.tags origin nature scope }
    {
        Tags {
            origin,
            nature,
            scope,
        }
    }

    /// Appends their letters, as `MGP`.
    pub(crate) fn push_letters(self, text: &mut Vec<u8>) -> Result<(), NoMemory>
        ensures { OnOk result (text.new.items ≡ text.old.items ++ letters self) }
    {
        text.push(self.origin.names().0)?;
        text.push(self.nature.names().0)?;
        text.push(self.scope.names().0)?;
        Ok(())
    }

    /// Appends the last two as members of an object of JSON.
    #[tactic(auto, unfolding(crate::specs::Tags::json_last_tags))]
    fn push_last_json(self, text: &mut Vec<u8>) -> Result<(), NoMemory>
        ensures { OnOk result (text.new.items ≡ text.old.items ++ spec.json_last_tags self) }
    {
        push_member(text, b"nature", self.nature.names().1)?;
        text.push(b',')?;
        push_member(text, b"scope", self.scope.names().1)?;
        Ok(())
    }

    /// Appends them as an object of JSON.
    #[tactic(auto, unfolding(crate::specs::Tags::json_tags))]
    pub(crate) fn push_json(self, text: &mut Vec<u8>) -> Result<(), NoMemory>
        ensures { OnOk result (text.new.items ≡ text.old.items ++ json_tags self) }
    {
        text.push(b'{')?;
        push_member(text, b"origin", self.origin.names().1)?;
        text.push(b',')?;
        self.push_last_json(text)?;
        text.push(b'}')?;
        Ok(())
    }
}
