// A text, read word by word.
ghost use Rattle.std.specs.Prelude.{◌≡◌, length};
ghost use Rattle.words.specs.Words.{is_blank, ends_word, is_bracket, past_blanks, from_word, run_length, word_length, word, after_word, left_at};

// What is left of a text.
#[derive(Clone, Copy)]
pub struct Text<'a> {
    pub bytes: &'a [u8],
}

// The next word of a text, which is empty at its end, and the text after it. It begins where so many bytes are left.
#[derive(Clone, Copy)]
pub struct Word<'a> {
    pub bytes: &'a [u8],
    pub left: usize,
    pub after: Text<'a>,
}

fn is_blank(byte: u8) -> bool
    ensures { result ≡ is_blank byte }
{
    byte == b' ' || byte == b'\t' || byte == b'\n' || byte == b'\r'
}

fn is_bracket(byte: u8) -> bool
    ensures { result ≡ is_bracket byte }
{
    byte == b'(' || byte == b')'
}

pub fn ends_word(byte: u8) -> bool
    ensures { result ≡ ends_word byte }
{
    is_blank(byte) || is_bracket(byte) || byte == b'#'
}

impl<'a> Text<'a> {
    // It without the blanks and comments that it begins with.
    fn from_word(self) -> Text<'a>
        ensures { result.bytes.now ≡ from_word self.entry.bytes.now }
    {
        let mut rest = self.bytes;
        let mut in_comment = false;
        while let Some((byte, after)) = rest.split_first() {
            if in_comment {
                in_comment = *byte != b'\n';
            } else if *byte == b'#' {
                in_comment = true;
            } else if !is_blank(*byte) {
                break;
            }
            rest = after;
        }
        Text { bytes: rest }
    }

    // How many bytes come before one that ends a word.
    fn run_length(self) -> usize
        ensures { result ≡ run_length self.entry.bytes.now }
    {
        let mut rest = self.bytes;
        while let Some((byte, after)) = rest.split_first() {
            if ends_word(*byte) {
                break;
            }
            rest = after;
        }
        self.bytes.len() - rest.len()
    }

    // How long the word is that it begins with.
    fn word_length(self) -> usize
        ensures { result ≡ word_length self.entry.bytes.now }
    {
        match self.bytes.first() {
            Some(first) if is_bracket(*first) => 1,
            _ => self.run_length(),
        }
    }

    // Its next word.
    pub fn word(self) -> Word<'a>
        ensures bytes { result.bytes.now ≡ word self.entry.bytes.now }
        ensures left { result.left ≡ left_at self.entry.bytes.now }
        ensures after { result.after.bytes.now ≡ after_word self.entry.bytes.now }
    {
        let from = self.from_word();
        let (bytes, after) = from.bytes.split_at(from.word_length());
        Word {
            bytes,
            left: from.bytes.len(),
            after: Text { bytes: after },
        }
    }
}
