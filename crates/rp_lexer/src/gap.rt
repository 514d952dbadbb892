//! What stands between tokens: separators and comments.

ghost use Rattle.std.specs.Prelude.{◌≡◌, ℕ, ◌<◌, ◌≤◌, ◌↔◌, length, IsTrue, IfSome, IfNone};
ghost use Rattle.rp_lexer.specs.Lexes.{is_separator, CommentBegins, IsComment, IsGap};
ghost use Rattle.rp_lexer.specs.Scan.{Stops, IsStep};

/// Whether the byte is a space, a tab, a CR or an LF.
fn is_separator(byte: u8) -> bool
    ensures { result ≡ is_separator byte }
{
    matches!(byte, b' ' | b'\t' | b'\r' | b'\n')
}

/// Where the comment that begins at `start` ends: at the next LF, or at the end of the text.
fn comment_end(text: &[u8], start: usize) -> usize
    requires { CommentBegins text.now start }
    ensures { IsComment text.now start result }
{
    let mut end = start + 2;
    while end < text.len() && text[end] != b'\n' {
        end += 1;
    }
    end
}

/// Whether `--` stands at the place.
fn begins_comment(text: &[u8], at: usize) -> bool
    requires { at < length text.now }
    ensures { IsTrue result ↔ CommentBegins text.now at }
{
    text[at..].starts_with(b"--")
}

/// Where the separator or comment at `at` ends, where one stands there.
fn step_end(text: &[u8], at: usize) -> Option<usize>
    requires { at ≤ length text.now }
    ensures some { IfSome result (IsStep text.now at) }
    ensures none { IfNone result (Stops text.now at) }
{
    if at == text.len() {
        return None;
    }
    if is_separator(text[at]) {
        return Some(at + 1);
    }
    if begins_comment(text, at) {
        return Some(comment_end(text, at));
    }
    None
}

/// Where the separators and comments that begin at `start` end.
pub(crate) fn gap_end(text: &[u8], start: usize) -> usize
    requires { start ≤ length text.now }
    ensures gap { IsGap text.now start result }
    ensures stops { Stops text.now result }
    ensures within { (start ≤ result) × (result ≤ length text.now) }
{
    let mut at = start;
    while let Some(end) = step_end(text, at) {
        at = end;
    }
    at
}
