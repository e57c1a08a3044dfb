ghost use Rattle.std.specs.Prelude.{◌≡◌, bytes_eq};
ghost use Rattle.pana_ignore.specs.Pattern.{class_has};
ghost use Rattle.pana_ignore.specs.Spelling.{class_named};

/// A class of bytes that has a name in a set, as `[:alpha:]`. None has a byte above 127.
#[derive(Clone, Copy)]
pub enum ByteClass {
    Alnum,
    Alpha,
    Blank,
    Cntrl,
    Digit,
    Graph,
    Lower,
    Print,
    Punct,
    Space,
    Upper,
    Xdigit,
}

/// Whether a name is this word.
fn reads(name: &[u8], word: &str) -> bool
    ensures { result ≡ bytes_eq name.now word.now }
{
    name == word.as_bytes()
}

impl ByteClass {
    /// The class of this name, if there is one.
    pub(crate) fn named(name: &[u8]) -> Option<ByteClass>
        ensures { result ≡ class_named name.now }
    {
        if reads(name, "alnum") {
            Some(ByteClass::Alnum)
        } else if reads(name, "alpha") {
            Some(ByteClass::Alpha)
        } else if reads(name, "blank") {
            Some(ByteClass::Blank)
        } else if reads(name, "cntrl") {
            Some(ByteClass::Cntrl)
        } else if reads(name, "digit") {
            Some(ByteClass::Digit)
        } else if reads(name, "graph") {
            Some(ByteClass::Graph)
        } else if reads(name, "lower") {
            Some(ByteClass::Lower)
        } else if reads(name, "print") {
            Some(ByteClass::Print)
        } else if reads(name, "punct") {
            Some(ByteClass::Punct)
        } else if reads(name, "space") {
            Some(ByteClass::Space)
        } else if reads(name, "upper") {
            Some(ByteClass::Upper)
        } else if reads(name, "xdigit") {
            Some(ByteClass::Xdigit)
        } else {
            None
        }
    }

    /// Whether the class has a byte.
    pub(crate) fn has(self, byte: u8) -> bool
        ensures { result ≡ class_has self byte }
    {
        match self {
            ByteClass::Alnum => byte.is_ascii_alphanumeric(),
            ByteClass::Alpha => byte.is_ascii_alphabetic(),
            ByteClass::Blank => byte == b'\t' || byte == b' ',
            ByteClass::Cntrl => byte.is_ascii_control(),
            ByteClass::Digit => byte.is_ascii_digit(),
            ByteClass::Graph => byte.is_ascii_graphic(),
            ByteClass::Lower => byte.is_ascii_lowercase(),
            ByteClass::Print => matches!(byte, b' '..=b'~'),
            ByteClass::Punct => byte.is_ascii_punctuation(),
            ByteClass::Space => matches!(byte, b'\t' | b'\n' | b'\r' | b' '),
            ByteClass::Upper => byte.is_ascii_uppercase(),
            ByteClass::Xdigit => byte.is_ascii_hexdigit(),
        }
    }
}
