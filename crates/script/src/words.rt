ghost use Rattle.std.specs.Prelude.{◌≡◌, drop};
ghost use Rattle.std.specs.Iterator.{YieldsFirstBy, item_count};
ghost use Rattle.std.specs.List.{before_first, position_or_len, prefix_len};
ghost use Rattle.script.specs.Words.{is_blank, is_hash, words_between, words};

/// The words of a text: what stands between blanks.
#[derive(Clone, Copy)]
pub(crate) struct Words<'a> {
    text: &'a [u8],
}

/// A blank, a tab or a carriage return.
fn is_blank(byte: u8) -> bool
    ensures { result ≡ is_blank byte }
{
    matches!(byte, b' ' | b'\t' | b'\r')
}

/// What stands before the first `#`.
fn before_comment(line: &[u8]) -> &[u8]
    ensures { result.now ≡ before_first is_hash line.now }
{
    match line.iter().position(|byte| *byte == b'#') {
        None => line,
        Some(at) => &line[..at],
    }
}

/// A text without the blanks that it begins with.
fn from_word(text: &[u8]) -> &[u8]
    ensures { result.now ≡ drop (prefix_len is_blank text.now) text.now }
{
    match text.iter().position(|byte| !is_blank(*byte)) {
        None => &[],
        Some(at) => &text[at..],
    }
}

/// What stands before the first blank of a text, and what follows.
fn split_word(text: &[u8]) -> (&[u8], &[u8])
    ensures word { result.0.now ≡ before_first is_blank text.now }
    ensures rest { result.1.now ≡ drop (position_or_len is_blank text.now) text.now }
{
    match text.iter().position(|byte| is_blank(*byte)) {
        None => (text, &[]),
        Some(at) => text.split_at(at),
    }
}

impl<'a> Words<'a> {
    /// The words of a line, up to its comment.
    pub(crate) fn of(line: &'a [u8]) -> Words<'a>
        ensures { words_between result.text.now ≡ words line.now }
    {
        Words {
            text: before_comment(line),
        }
    }
}

impl<'a> Iterator for Words<'a> {
    type Item = &'a [u8];

    ghost next_gives = { YieldsFirstBy (λ word. word.now) (λ left. words_between left.text.now) };

    ghost remaining = { item_count (λ left. words_between left.text.now) };

    fn next(&mut self) -> Option<&'a [u8]> {
        let (word, rest) = split_word(from_word(self.text));
        self.text = rest;
        if word.is_empty() { None } else { Some(word) }
    }
}
