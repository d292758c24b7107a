ghost use Rattle.std.specs.Prelude.{◌≡◌, ℕ, List, ◌++◌, ◌<◌, ◌≤◌, length, drop, MatchOption, MatchBool, encode_utf8};
ghost use Rattle.std.specs.Str.{IsCharBoundary};
ghost use Rattle.std.specs.Char.{IsScalar};
ghost use Rattle.pc_token.specs.Token.{IsNameAt, StartsNoName};

use pc_name::{continues_name, starts_name};

// The character that begins at `at`.
fn char_at(line: &str, at: usize) -> Option<char>
    requires { IsCharBoundary line.now at }
    ensures { MatchOption result (at ≡ length line.now) (λ c. (more : List ℕ) ×
        (drop at line.now ≡ encode_utf8 c ++ more)) }
{
    line[at..].chars().next()
}

/// Where the longest name at `start` ends, or `start` where there is none.
pub fn name_end(line: &str, start: usize) -> usize
    requires { IsCharBoundary line.now start }
    ensures start { result ≡ start → StartsNoName line.now start }
    ensures name { start < result → IsNameAt line.now start result }
    ensures after { start ≤ result }
    ensures boundary { IsCharBoundary line.now result }
{
    let mut end = start;
    if let Some(c) = char_at(line, start)
        && starts_name(c)
    {
        end += c.len_utf8();
        while let Some(c) = char_at(line, end)
            && continues_name(c)
        {
            end += c.len_utf8();
        }
    }
    end
}
