// The line by which a commit is told.
ghost use Rattle.std.specs.Prelude.{◌≡◌, ◌||◌, ◌==◌, take};
ghost use Rattle.std.specs.Str.{IsCharBoundary};
ghost use Rattle.kishu_language.specs.tokens.Lines.{line_feed};
ghost use Rattle.kishu_language.specs.tokens.PlainLines.{carriage_return};
ghost use Rattle.kishu_store.specs.CommitLines.{goes_on};
ghost use Rattle.kishu_graph.specs.Facts.{line_of_text};

/// The most characters that a line has.
const LONGEST_LINE: usize = 60;

fn is_line_end(byte: u8) -> bool
    ensures { result ≡ ((byte == line_feed) || (byte == carriage_return)) }
{
    byte == b'\n' || byte == b'\r'
}

/// Whether a byte goes on with a character.
fn goes_on(byte: u8) -> bool
    ensures { result ≡ goes_on byte }
{
    128 <= byte && byte <= 191
}

/// How many bytes of a text its line has.
fn line_length(text: &[u8]) -> usize
    ensures line { take result text.now ≡ line_of_text text.now }
    ensures whole { IsCharBoundary text.now result }
{
    let mut left = LONGEST_LINE;
    for i in 0..text.len() {
        let byte = text[i];
        if is_line_end(byte) {
            return i;
        }
        if !goes_on(byte) {
            if left == 0 {
                return i;
            }
            left -= 1;
        }
    }
    text.len()
}

/// The line of a commit whose first cell is this text: up to its first line feed or carriage return, cut
/// to 60 characters.
pub fn line_of(text: &str) -> &str
    ensures { result.now ≡ line_of_text text.now }
{
    let (line, _) = text.split_at(line_length(text.as_bytes()));
    line
}
