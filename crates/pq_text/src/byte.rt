//! Which bytes are white, letters and marks.
ghost use Rattle.std.specs.Prelude.{◌≡◌};
ghost use Rattle.pq_text.specs.Bytes.{is_white, is_letter, is_word_byte, is_mark, is_double_mark};

/// Space, tab, line feed or carriage return.
pub fn white(byte: u8) -> bool
    ensures { result ≡ is_white byte }
{
    byte == b' ' || byte == b'\t' || byte == b'\n' || byte == b'\r'
}

/// `A` to `Z`, `a` to `z` or `_`.
pub fn letter(byte: u8) -> bool
    ensures { result ≡ is_letter byte }
{
    byte.is_ascii_alphabetic() || byte == b'_'
}

/// What a word goes on with.
pub fn word_byte(byte: u8) -> bool
    ensures { result ≡ is_word_byte byte }
{
    letter(byte) || byte.is_ascii_digit()
}

/// A mark of one byte.
pub fn mark(byte: u8) -> bool
    ensures { result ≡ is_mark byte }
{
    (b'(' <= byte && byte <= b'*')
        || byte == b','
        || byte == b'.'
        || (b':' <= byte && byte <= b'>')
        || byte == b'['
        || byte == b']'
}

/// A mark of two bytes.
pub fn double_mark(first: u8, second: u8) -> bool
    ensures { result ≡ is_double_mark first second }
{
    (first == b'<' && (second == b'=' || second == b'>')) || (first == b'>' && second == b'=')
}
