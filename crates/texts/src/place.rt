// Where something stands in a text.
ghost use Rattle.std.specs.Prelude.{◌≡◌, ◌≤◌, ◌-◌, ◌+◌, length, take};
ghost use Rattle.texts.specs.Texts.{line_feeds};

// How many line feeds a text has.
fn line_feeds(text: &[u8]) -> usize
    ensures count { result ≡ line_feeds text.now }
    ensures few { result ≤ length text.now }
{
    let mut feeds = 0;
    let mut rest = text;
    while let Some((byte, after)) = rest.split_first() {
        if *byte == b'\n' {
            feeds += 1;
        }
        rest = after;
    }
    feeds
}

// In which line of a text, from 1, so many bytes are left of it.
pub fn line_of(text: &[u8], left: usize) -> u64
    ensures { result ≡ line_feeds (take (length text.now - left) text.now) + 1 }
{
    line_feeds(&text[..text.len().saturating_sub(left)]) as u64 + 1
}
