// How a text falls into lines.
ghost use Rattle.std.specs.Prelude.{◌≡◌, ◌<◌, ◌≤◌, ◌+◌, ◌∷◌, ◌++◌, [], length, take, drop, IfSome, IfNone, MatchOption};
ghost use Rattle.std.specs.Str.Lines.{lines, strip_carriage_return};
ghost use Rattle.pc_lines.specs.Lines.{HasNoEnd};

// The index of the first line feed.
pub(crate) fn line_end(bytes: &[u8]) -> Option<usize>
    ensures found { IfSome result
        (λ i. (bytes.now ≡ (take i bytes.now ++ 10 ∷ []) ++ drop (i + 1) bytes.now) ×
        (i < length bytes.now)) }
    ensures first { IfSome result (λ i. HasNoEnd (take i bytes.now)) }
    ensures none { IfNone result (HasNoEnd bytes.now) }
{
    bytes.iter().position(|byte| *byte == b'\n')
}

// The line without one carriage return at its end.
pub(crate) fn without_return(line: &[u8]) -> &[u8]
    ensures { result.now ≡ strip_carriage_return line.now }
{
    let count = line.len();
    if count > 0 && line[count - 1] == b'\r' {
        return &line[..count - 1];
    }
    line
}

/// The first line of the text, and what follows it.
pub fn next_line(bytes: &[u8]) -> Option<(&[u8], &[u8])>
    ensures first { MatchOption result (lines bytes.now ≡ []) (λ p. lines bytes.now ≡ p.0.now ∷
        lines p.1.now) }
    ensures short { IfSome result (λ p. length p.0.now ≤ length bytes.now) }
    ensures shorter { IfSome result (λ p. length p.1.now < length bytes.now) }
{
    if bytes.is_empty() {
        return None;
    }
    let Some(end) = line_end(bytes) else {
        return Some((bytes, &[]));
    };
    Some((without_return(&bytes[..end]), &bytes[end + 1..]))
}
