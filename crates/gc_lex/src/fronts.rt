ghost use Rattle.std.specs.Prelude.{◌≡◌, ◌≤◌, length};
ghost use Rattle.std.specs.Char.{is_ascii_digit};
ghost use Rattle.std.specs.List.{prefix_len, position_or_len};
ghost use Rattle.gc_base.specs.Words.{is_word_part};
ghost use Rattle.gc_lex.specs.Characters.{is_line_feed, is_separator};
ghost use Rattle.gc_lex.specs.Contents.{is_plain};

/// Whether a byte is a space, a tab, a carriage return or a line feed.
pub fn is_separator(byte: u8) -> bool
    ensures { result ≡ is_separator byte }
{
    matches!(byte, b' ' | b'\t' | b'\r' | b'\n')
}

/// How many separators a text begins with.
pub fn separator_length(text: &[u8]) -> usize
    ensures { result ≡ prefix_len is_separator text.now }
{
    text.iter().take_while(|byte| is_separator(**byte)).count()
}

/// How many bytes of a word a text begins with.
pub fn word_length(text: &[u8]) -> usize
    ensures { result ≡ prefix_len is_word_part text.now }
{
    text.iter()
        .take_while(|byte| byte.is_ascii_alphanumeric() || **byte == b'_')
        .count()
}

/// How many digits a text begins with.
pub fn number_length(text: &[u8]) -> usize
    ensures length { result ≡ prefix_len is_ascii_digit text.now }
    ensures within { result ≤ length text.now }
{
    text.iter().take_while(|byte| byte.is_ascii_digit()).count()
}

/// How many bytes stand before the first line feed.
pub fn line_length(text: &[u8]) -> usize
    ensures { result ≡ position_or_len is_line_feed text.now }
{
    text.iter().take_while(|byte| **byte != b'\n').count()
}

/// How many bytes that stand for themselves a text begins with, up to a quote or a backslash.
pub fn plain_length(text: &[u8], quote: u8) -> usize
    ensures length { result ≡ prefix_len (is_plain quote) text.now }
    ensures within { result ≤ length text.now }
{
    text.iter()
        .take_while(|byte| **byte != quote && **byte != b'\\')
        .count()
}
