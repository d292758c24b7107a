// The words of a line, read from the left.
ghost use Rattle.std.specs.Prelude.{◌≡◌, ◌↔◌, ◌<◌, ◌≤◌, ℕ, true, List, [], ◌∷◌, length, IsTrue, MatchOption};
ghost use Rattle.std.specs.List.{AllByRecursion};
ghost use Rattle.std.specs.Str.Parse.{IsNumeral};
ghost use Rattle.pc_name.specs.Names.{is_reserved, IsName};
ghost use Rattle.pc_token.specs.Token.{IsTokenOf};
ghost use Rattle.pc_formula.specs.Word.{name, reserved, number, sign, word_of, words_of, IsShort, HasShortNames, nests, nesting, IsSign, TakesSign, NotFirst, HasNoName, HasNotReserved, HasNoNumber};
ghost use Rattle.pc_formula.specs.Front.{reach, StopsLevel};
ghost use Rattle.pc_formula.specs.Sign.{op_sign, added_sign};

use pc_name::{Op, Sign, is_reserved};
use pc_token::{Kind, Token};
use std::marker::Model;

/// The most bytes that a name may have.
const MOST_NAME_BYTES: usize = 4_194_304;

/// What is left of a line, seen as its words.
#[derive(Drop)]
pub struct Words<'a> {
    line: &'a str,
    tokens: &'a [Token],
}

impl<'a> Model for Words<'a> {
    ghost use Rattle.std.specs.Prelude.{List};
    ghost use Rattle.std.specs.List.{AllByRecursion};
    ghost use Rattle.pc_token.specs.Token.{IsTokenOf};
    ghost use Rattle.pc_formula.specs.Word.{Word, words_of, HasShortNames};

    ghost Value = { List Word };

    ghost view = { λ w. words_of w.line.now w.tokens.now };

    ghost invariant = { λ w. AllByRecursion (IsTokenOf w.line.now) w.tokens.now × HasShortNames (words_of w.line.now w.tokens.now) };
}

impl<'a> Words<'a> {
    /// The words of these tokens of the line.
    pub fn new(line: &'a str, tokens: &'a [Token]) -> Words<'a>
        requires tokens { AllByRecursion (IsTokenOf line.now) tokens.now }
        requires short { HasShortNames (words_of line.now tokens.now) }
        ensures { result ≡ words_of line.now tokens.now }
    {
        Words { line, tokens }
    }

    /// Whether no word is left.
    pub fn is_empty(&self) -> bool
        ensures { IsTrue result ↔ (self.now ≡ []) }
    {
        self.tokens.is_empty()
    }

    /// Takes the sign, where it is the first word.
    pub fn take_sign(&mut self, kind: Kind) -> bool
        requires { IsSign kind }
        ensures { TakesSign kind self.old result self.new }
    {
        let Some((first, rest)) = self.tokens.split_first() else {
            return false;
        };
        if !is_sign(*first, kind) {
            return false;
        }
        self.tokens = rest;
        true
    }

    /// Takes the first word, where it is a name.
    pub fn take_name(&mut self) -> Option<&'a str>
        ensures { MatchOption result (HasNoName self.old self.new) (λ text.
            (self.old ≡ name text.now ∷ self.new) × IsName text.now) }
    {
        let (first, rest) = self.tokens.split_first()?;
        let text = name_of(self.line, *first)?;
        self.tokens = rest;
        Some(text)
    }

    /// Takes the first word, where it is a reserved one.
    pub fn take_reserved(&mut self) -> Option<&'a str>
        ensures { MatchOption result (HasNotReserved self.old self.new) (λ text.
            (self.old ≡ reserved text.now ∷ self.new) × (is_reserved text.now ≡ true)) }
    {
        let (first, rest) = self.tokens.split_first()?;
        let text = reserved_of(self.line, *first)?;
        self.tokens = rest;
        Some(text)
    }

    /// Takes the first word, where it is a number, of at most 18 digits.
    pub fn take_number(&mut self) -> Option<&'a str>
        ensures { MatchOption result (HasNoNumber self.old self.new) (λ digits.
            (self.old ≡ number digits.now ∷ self.new) × IsNumeral 10 digits.now ×
            (length digits.now ≤ 18)) }
    {
        let (first, rest) = self.tokens.split_first()?;
        let digits = number_of(self.line, *first)?;
        self.tokens = rest;
        Some(digits)
    }

    /// Takes the first word, where it is the sign of a comparison.
    pub fn take_op(&mut self) -> Option<Op>
        ensures { MatchOption result ((self.new ≡ self.old) ×
            ((op : Op) → NotFirst (op_sign op) self.old)) (λ op. self.old ≡ sign (op_sign op) ∷
            self.new) }
    {
        let (first, rest) = self.tokens.split_first()?;
        let op = op_of(first.kind)?;
        self.tokens = rest;
        Some(op)
    }

    /// Takes the first word, where it is a plus or a minus.
    pub fn take_plus_or_minus(&mut self) -> Option<Sign>
        ensures { MatchOption result ((self.new ≡ self.old) ×
            ((s : Sign) → NotFirst (added_sign s) self.old)) (λ s. self.old ≡ sign (added_sign s) ∷
            self.new) }
    {
        let (first, rest) = self.tokens.split_first()?;
        let sign = plus_or_minus_of(first.kind)?;
        self.tokens = rest;
        Some(sign)
    }

    /// Whether the first word is no sign by which a form of the level would go on.
    pub fn stops_at(&self, level: u8) -> bool
        requires { level < 8 }
        ensures { IsTrue result ↔ StopsLevel level self.now }
    {
        match self.tokens.first() {
            None => true,
            Some(token) => level < reach(token.kind),
        }
    }

    /// At how many of the words a formula goes a level down: `(`, `!`, `->` and the words that start quantifiers.
    pub fn nesting(&self) -> usize
        ensures { result ≡ nesting self.now }
    {
        nesting(self.line, self.tokens)
    }
}

/// Whether each name among the words of the tokens is no longer than a name may be.
pub fn has_short_names(line: &str, tokens: &[Token]) -> bool
    requires { AllByRecursion (IsTokenOf line.now) tokens.now }
    ensures { IsTrue result ↔ HasShortNames (words_of line.now tokens.now) }
{
    let mut rest = tokens;
    'tokens: while let Some((first, after)) = rest.split_first() {
        if !is_short(line, *first) {
            return false;
        }
        rest = after;
    }
    true
}

// Whether the token is no name, or one that is no longer than a name may be.
fn is_short(line: &str, token: Token) -> bool
    requires { IsTokenOf line.now token }
    ensures { IsTrue result ↔ IsShort (word_of line.now token) }
{
    if token.kind != Kind::Name {
        return true;
    }
    line[token.start..token.end].len() <= MOST_NAME_BYTES
}

// Whether the token is the sign.
fn is_sign(token: Token, kind: Kind) -> bool
    requires { IsSign kind }
    ensures { (line : List ℕ) → (IsTrue result ↔ (word_of line token ≡ sign kind)) }
{
    is_of_kind(token, kind)
}

fn is_of_kind(token: Token, kind: Kind) -> bool
    ensures { IsTrue result ↔ (token.kind ≡ kind) }
{
    token.kind == kind
}

// The name that the token is.
fn name_of<'a>(line: &'a str, token: Token) -> Option<&'a str>
    requires token { IsTokenOf line.now token }
    requires short { IsShort (word_of line.now token) }
    ensures { MatchOption result ((text : List ℕ) → word_of line.now token ≡ name text →
        ⊥) (λ text. (word_of line.now token ≡ name text.now) × IsName text.now) }
{
    if token.kind != Kind::Name {
        return None;
    }
    let text = &line[token.start..token.end];
    if is_reserved(text) {
        return None;
    }
    Some(text)
}

// The reserved word that the token is.
fn reserved_of<'a>(line: &'a str, token: Token) -> Option<&'a str>
    requires { IsTokenOf line.now token }
    ensures { MatchOption result ((text : List ℕ) → word_of line.now token ≡ reserved text →
        ⊥) (λ text. (word_of line.now token ≡ reserved text.now) × (is_reserved text.now ≡ true)) }
{
    if token.kind != Kind::Name {
        return None;
    }
    let text = &line[token.start..token.end];
    if !is_reserved(text) {
        return None;
    }
    Some(text)
}

// The digits of the number that the token is.
fn number_of<'a>(line: &'a str, token: Token) -> Option<&'a str>
    requires { IsTokenOf line.now token }
    ensures { MatchOption result ((digits : List ℕ) → word_of line.now token ≡ number digits →
        ⊥) (λ digits. (word_of line.now token ≡ number digits.now) × IsNumeral 10 digits.now ×
        (length digits.now ≤ 18)) }
{
    if token.kind != Kind::Number {
        return None;
    }
    Some(&line[token.start..token.end])
}

// At how many of the tokens a formula goes a level down.
fn nesting(line: &str, tokens: &[Token]) -> usize
    requires { AllByRecursion (IsTokenOf line.now) tokens.now }
    ensures { result ≡ nesting (words_of line.now tokens.now) }
{
    let mut count = 0;
    let mut rest = tokens;
    'tokens: while let Some((first, after)) = rest.split_first() {
        if nests(line, *first) {
            count += 1;
        }
        rest = after;
    }
    count
}

// Whether a formula goes a level down at the token.
fn nests(line: &str, token: Token) -> bool
    requires { IsTokenOf line.now token }
    ensures { result ≡ nests (word_of line.now token) }
{
    match token.kind {
        Kind::Open | Kind::Not | Kind::Arrow => true,
        Kind::Name => is_reserved(&line[token.start..token.end]),
        _ => false,
    }
}

// How loosely the sign binds.
fn reach(kind: Kind) -> u8
    ensures { result ≡ reach kind }
{
    match kind {
        Kind::Open => 1,
        Kind::Plus | Kind::Minus => 2,
        Kind::Equal | Kind::NotEqual | Kind::Less => 3,
        Kind::LessEqual | Kind::Greater | Kind::GreaterEqual => 3,
        Kind::And => 4,
        Kind::Or => 5,
        Kind::Arrow => 6,
        Kind::DoubleArrow => 7,
        _ => 8,
    }
}

fn op_of(kind: Kind) -> Option<Op>
    ensures { MatchOption result ((op : Op) → kind ≡ op_sign op → ⊥) (λ op. kind ≡ op_sign op) }
{
    match kind {
        Kind::Equal => Some(Op::Eq),
        Kind::NotEqual => Some(Op::Ne),
        Kind::Less => Some(Op::Lt),
        Kind::LessEqual => Some(Op::Le),
        Kind::Greater => Some(Op::Gt),
        Kind::GreaterEqual => Some(Op::Ge),
        _ => None,
    }
}

fn plus_or_minus_of(kind: Kind) -> Option<Sign>
    ensures { MatchOption result ((s : Sign) → kind ≡ added_sign s → ⊥) (λ s. kind ≡ added_sign s) }
{
    match kind {
        Kind::Plus => Some(Sign::Plus),
        Kind::Minus => Some(Sign::Minus),
        _ => None,
    }
}
