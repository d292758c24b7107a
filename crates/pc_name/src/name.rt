ghost use Rattle.std.specs.Prelude.{◌≡◌, ◌↔◌, IsTrue, IfOk, nat_eq};
ghost use Rattle.std.specs.Cmp.{partial_equiv_from_equiv};
ghost use Rattle.std.specs.Cmp.Lexicographic.{pointwise, nat_list_eq_equiv};
ghost use Rattle.pc_name.specs.Names.{starts_name, continues_name, is_reserved, AllContinue, HasNameCharacters, IsName};

use std::alloc::{AllocError, Global};
use std::marker::Model;
use unicode_ident::{is_xid_continue, is_xid_start};

/// What a sort, a value, a table, a family or a rule is called. It is seen as its bytes in UTF-8.
///
/// Names are compared byte by byte: two spellings of one letter are two names.
#[derive(Drop)]
pub struct Name {
    text: String,
}

impl Model for Name {
    ghost use Rattle.std.specs.Prelude.{ℕ, List, string_bytes};
    ghost use Rattle.pc_name.specs.Names.{IsName};

    ghost Value = { List ℕ };

    ghost view = { λ n. string_bytes n.text };

    ghost invariant = { λ n. IsName (string_bytes n.text) };
}

impl Name {
    /// The name with this text.
    pub fn new(alloc: Global, text: &str) -> Result<Name, AllocError>
        requires { IsName text.now }
        ensures { IfOk result (λ name. name ≡ text.now) }
    {
        Ok(Name {
            text: String::from_str(alloc, text)?,
        })
    }

    /// The name's text.
    pub fn as_str(&self) -> &str
        ensures text { result.now ≡ self.now }
        ensures name { IsName self.now }
    {
        self.text.as_str()
    }
}

impl Clone for Name {
    ghost is_clone = { λ name copy. copy ≡ name };

    fn clone(&self) -> Result<Name, AllocError> {
        let text = self.text.clone()?;
        Ok(Name { text })
    }
}

impl PartialEq for Name {
    ghost eq = { pointwise nat_eq };

    ghost laws = { partial_equiv_from_equiv nat_list_eq_equiv };

    fn eq(&self, other: &Name) -> bool {
        self.as_str() == other.as_str()
    }
}

impl Eq for Name {
    ghost laws = { nat_list_eq_equiv };
}

/// The most bytes that a name has.
const MOST_NAME_BYTES: usize = 4_194_304;

/// Whether the text is a name's.
pub fn is_name(text: &str) -> bool
    ensures { IsTrue result ↔ IsName text.now }
{
    text.len() <= MOST_NAME_BYTES && !is_reserved(text) && has_name_characters(text)
}

/// Whether the text is one of the words that are no name.
pub fn is_reserved(text: &str) -> bool
    ensures { result ≡ is_reserved text.now }
{
    text == "forall" || text == "exists" || text == "atmost" || text == "atleast"
}

/// Whether a name may start with the character.
pub fn starts_name(c: char) -> bool
    ensures { result ≡ starts_name c }
{
    c == '_' || is_xid_start(c)
}

/// Whether a name may go on with the character.
pub fn continues_name(c: char) -> bool
    ensures { result ≡ continues_name c }
{
    is_xid_continue(c)
}

// Whether the text is a character that starts a name and then characters that continue it.
fn has_name_characters(text: &str) -> bool
    ensures { IsTrue result ↔ HasNameCharacters text.now }
{
    let mut rest = text.chars();
    match rest.next() {
        Some(first) => starts_name(first) && all_continue(rest.as_str()),
        None => false,
    }
}

// Whether each character of the text may continue a name.
fn all_continue(text: &str) -> bool
    ensures { IsTrue result ↔ AllContinue text.now }
{
    for c in text.chars() {
        if !continues_name(c) {
            return false;
        }
    }
    true
}
