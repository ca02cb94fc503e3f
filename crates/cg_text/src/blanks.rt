//! Which bytes separate the words and lines of a format.

ghost use Rattle.std.specs.Prelude.{◌≡◌};
ghost use Rattle.cg_text.specs.Blanks.{is_blank, is_white_space, separates};

/// Whether a byte is white space: a space, a tab, a line feed, a vertical tab, a form feed or a carriage return. Most bytes are above
/// a space, and tell so at once.
pub fn is_white_space(byte: u8) -> bool
    ensures { result ≡ is_white_space byte }
{
    byte <= b' ' && (byte == b' ' || (9 <= byte && byte <= 13))
}

/// The bytes that stand between words.
#[derive(Clone, Copy)]
pub enum Blanks {
    /// Space, tab, line feed, vertical tab, form feed and carriage return, as in DIMACS and LRAT.
    Whitespace,
    /// Space and every byte below it, as in BLIF.
    Controls,
    /// Space, tab, line feed and carriage return, as in VCD.
    Spaces,
}

impl Blanks {
    /// Whether the byte is a blank.
    pub fn has(self, byte: u8) -> bool
        ensures { result ≡ is_blank self byte }
    {
        match self {
            Blanks::Whitespace => is_white_space(byte),
            Blanks::Controls => byte <= b' ',
            Blanks::Spaces => byte == b' ' || byte == b'\t' || byte == b'\n' || byte == b'\r',
        }
    }
}

/// What ends a piece of text.
#[derive(Clone, Copy)]
pub enum Separator {
    /// A line ends at a line feed.
    LineFeed,
    /// A word ends at a blank.
    Blank(Blanks),
}

impl Separator {
    /// Whether a piece ends at this byte.
    pub fn is_at(self, byte: u8) -> bool
        ensures { result ≡ separates self byte }
    {
        match self {
            Separator::LineFeed => byte == b'\n',
            Separator::Blank(blanks) => blanks.has(byte),
        }
    }
}
