//! Places in the text of a script.
ghost use Rattle.std.specs.Prelude.{◌≡◌, ◌+◌, ◌≤◌, ◌<◌, ◌^◌, length, take};
ghost use Rattle.iv_script.specs.Places.{after_byte, ends_words, is_continuation, place_at, room_after, words_at, words_of};

/// The most characters that are told of a line.
pub const MOST_WORDS: u32 = 60;

/// The place of a character in a text. Lines and columns count from 1, and columns count characters.
#[derive(Clone, Copy, Debug, PartialEq, Eq)]
pub struct Place {
    pub line: u64,
    pub column: u64,
}

// Whether a byte goes on a character of UTF-8.
pub(crate) fn is_continuation(byte: u8) -> bool
    ensures { result ≡ is_continuation byte }
{
    byte >= 128 && byte < 192
}

fn ends_words(byte: u8) -> bool
    ensures { result ≡ ends_words byte }
{
    byte < 32 && byte != 9
}

fn after_byte(place: Place, byte: u8) -> Place
    requires line { place.line + 1 < 2 ^ 64 }
    requires column { place.column + 1 < 2 ^ 64 }
    ensures place { result ≡ after_byte place byte }
    ensures line { result.line ≤ place.line + 1 }
    ensures column { result.column ≤ place.column + 1 }
{
    if byte == b'\n' {
        Place {
            line: place.line + 1,
            column: 1,
        }
    } else if is_continuation(byte) {
        place
    } else {
        Place {
            line: place.line,
            column: place.column + 1,
        }
    }
}

/// The place of a byte of a text. It takes time in proportion to the bytes before it.
pub fn place_at(text: &str, at: usize) -> Place
    ensures { result ≡ place_at text.now at }
{
    let bytes = text.as_bytes();
    let mut rest = &bytes[..at.min(bytes.len())];
    let mut place = Place { line: 1, column: 1 };
    while let Some((byte, others)) = rest.split_first() {
        place = after_byte(place, *byte);
        rest = others;
    }
    place
}

// How many characters there may be after a byte of the words; none where the words end before it.
fn room_after(room: u32, byte: u8) -> Option<u32>
    ensures { result ≡ room_after room byte }
{
    if ends_words(byte) {
        None
    } else if is_continuation(byte) {
        Some(room)
    } else {
        room.checked_sub(1)
    }
}

// How many bytes the words at the front of a text have, of at most so many characters.
fn count_words(text: &[u8], most: u32) -> usize
    ensures within { result ≤ length text.now }
    ensures words { take result text.now ≡ words_of most text.now }
{
    let mut room = most;
    let mut count = 0usize;
    let mut rest = text;
    while let Some((byte, others)) = rest.split_first() {
        let Some(less) = room_after(room, *byte) else {
            break;
        };
        room = less;
        count += 1;
        rest = others;
    }
    count
}

// The words at the front of a text, of at most so many characters.
pub(crate) fn words_of(text: &[u8], most: u32) -> &[u8]
    ensures { result.now ≡ words_of most text.now }
{
    &text[..count_words(text, most)]
}

/// The words at a byte of a text: what is left of the line, or its first characters, up to `MOST_WORDS`.
pub fn words_at<'a>(text: &'a str, at: usize) -> &'a [u8]
    ensures { result.now ≡ words_at text.entry.now at }
{
    let bytes = text.as_bytes();
    words_of(&bytes[at.min(bytes.len())..], MOST_WORDS)
}
