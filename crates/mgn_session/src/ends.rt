//! The ends of lines in a text.

ghost use Rattle.std.specs.Prelude.{◌≡◌, position, ◌==◌};
ghost use Rattle.mgn_session.specs.Conversation.{line_ends};

use memchr::memchr;

// Where the first line of a text ends, if one does.
pub(crate) fn find_end(text: &[u8]) -> Option<usize>
    ensures { result ≡ position (λ b. b == 10) text.now }
{
    memchr(b'\n', text)
}

// How many lines end in a text.
pub(crate) fn count_ends(text: &[u8]) -> usize
    ensures { result ≡ line_ends text.now }
{
    let mut at = 0;
    let mut count = 0;
    while at < text.len() {
        match find_end(&text[at..]) {
            Some(end) => {
                at += end + 1;
                count += 1;
            }
            None => return count,
        }
    }
    count
}
