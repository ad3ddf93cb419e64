// The tokens of a protocol text: what each is, and where it stands.
ghost use Rattle.std.specs.Prelude.{◌≡◌, true};
ghost use Rattle.text.specs.inner.Kinds.{is_kind};

// What a token is.
#[derive(Clone, Copy, Debug, PartialEq, Eq)]
pub enum Kind {
    // the text ran out
    TextEnd,
    Malformed,
    // a name or a label
    Name,
    Number,
    Edition,
    End,
    Rec,
    Int,
    Text,
    Flag,
    Dot,
    Dots,
    // a byte that is a token by itself
    Sign(u8),
}

// A token from `start` up to `end`. That a sign is one of the signs is known of each.
#[derive(Clone, Copy)]
pub struct Token {
    pub kind: Kind,
    pub start: usize,
    pub end: usize,
    pub ghost known: { is_kind kind ≡ true },
}

impl Token {
    pub fn new(kind: Kind, start: usize, end: usize) -> Token
        requires { is_kind kind ≡ true }
        ensures kind { result.kind ≡ kind }
        ensures start { result.start ≡ start }
        ensures end { result.end ≡ end }
    {
        Token { kind, start, end }
    }
}
