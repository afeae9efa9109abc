//! How far a client's conversation on the stats socket is; `StatsService` goes by it.

ghost use Rattle.std.specs.Prelude.{◌≡◌};
ghost use Rattle.tcp_watch.specs.Conversations as spec;

/// Whether a client is prompted, and whether all is said. As HAProxy 2.6 does it, a client has the answers to the lines that come
/// together, unless it asked to be prompted (Management Guide 2.6, 9.3).
#[derive(Clone, Copy, Debug, PartialEq, Eq)]
pub struct Conversation {
    /// Whether `> ` stands behind each answer, and the client may send further lines.
    pub is_prompting: bool,
    /// Whether the client is answered nothing more.
    pub is_over: bool,
}

/// How long a client may stay.
#[derive(Clone, Copy, Debug, PartialEq, Eq)]
pub enum Stay {
    /// For as long as it likes, once it has asked to be prompted.
    Long,
    /// For one line, whatever it asks: its place is kept for who comes next.
    Short,
}

impl Stay {
    /// How many reads its conversation has at most.
    pub fn most_reads(self) -> u64
        ensures { result ≡ spec.most_reads self }
    {
        match self {
            Stay::Long => 1 << 40,
            Stay::Short => 4,
        }
    }
}

/// How many bytes of a client are read at once: as many as HAProxy's buffer has.
pub const READ_BYTES: usize = 16_384;

/// Whether more is to come behind a piece that was read: it leaves no room in the buffer, or its last line has no end.
pub fn is_cut(piece: &[u8]) -> bool
    ensures { result ≡ spec.is_cut piece.now }
{
    piece.len() == READ_BYTES || !piece.ends_with(b"\n")
}

/// A client that has said nothing yet.
pub const BEGUN: Conversation = Conversation {
    is_prompting: false,
    is_over: false,
};

impl Conversation {
    /// After `prompt`, which asks for prompts, or asks for them no longer. Who may not stay gets none.
    pub fn after_prompt(self, stay: Stay) -> Conversation
        ensures { result ≡ spec.after_prompt stay self }
    {
        match stay {
            Stay::Long => Conversation {
                is_prompting: !self.is_prompting,
                ..self
            },
            Stay::Short => self,
        }
    }

    /// After `quit`.
    pub fn after_quit(self) -> Conversation
        ensures { result ≡ spec.after_quit self }
    {
        Conversation {
            is_over: true,
            ..self
        }
    }

    /// After the lines that came together, of which more is to come or not.
    pub fn after_lines(self, is_more_to_come: bool) -> Conversation
        ensures { result ≡ spec.after_lines is_more_to_come self }
    {
        Conversation {
            is_over: self.is_over || !(self.is_prompting || is_more_to_come),
            ..self
        }
    }

    /// What stands behind an answer.
    pub fn mark(self) -> &'static [u8]
        ensures { result.now ≡ spec.mark self }
    {
        if self.is_prompting && !self.is_over {
            b"> "
        } else {
            b""
        }
    }
}
