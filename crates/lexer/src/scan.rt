//! What stands at the front of a text, a separator or a token, and how many bytes it is.
ghost use Rattle.std.specs.Prelude.{◌≡◌, ℕ, ◌<◌, ◌≤◌, true, false, [], ◌∷◌, length, MatchOption, IfNone, IfSome};
ghost use Rattle.std.specs.Char.{is_ascii_alphanumeric};
ghost use Rattle.text.specs.Names.{byte, Word};
ghost use Rattle.lexer.specs.Gaps.{Gap, Pair, Separator};
ghost use Rattle.lexer.specs.Tokens.{Numeral, Spells, Stands};

use crate::tokens::Token;
use text::Keyword;

/// The largest number that a text may hold.
const MAX_NUMBER: u32 = 65_535;

/// How many bytes stand in front of the first `*/`, if there is one.
fn comment_len(text: &[u8]) -> Option<usize>
    ensures open { IfNone result ((k : ℕ) → Pair 42 47 text.now k → ⊥) }
    ensures closed { IfSome result (λ n. Pair 42 47 text.now n) }
    ensures first { IfSome result (λ n. (k : ℕ) → k < n → Pair 42 47 text.now k → ⊥) }
{
    text.windows(2)
        .position(|pair| matches!(pair, [b'*', b'/']))
}

/// How long the separator in front is, if one stands there.
fn separator_len(text: &[u8]) -> Option<usize>
    ensures none { IfNone result ((k : ℕ) → Separator text.now 0 k → ⊥) }
    ensures some { IfSome result (λ k. Separator text.now 0 k) }
    ensures within { IfSome result (λ k. (0 < k) × (k ≤ length text.now)) }
{
    match text.split_first()? {
        (b' ' | b'\t' | b'\r' | b'\n', _) => Some(1),
        (b'/', [b'/', line @ ..]) => Some(2 + text::line_len(line)),
        (b'/', [b'*', rest @ ..]) => Some(4 + comment_len(rest)?),
        _ => None,
    }
}

/// The place behind all separators that stand from `start` on.
pub fn skip(text: &[u8], start: usize) -> usize
    requires { start ≤ length text.now }
    ensures within { result ≤ length text.now }
    ensures gap { Gap text.now start result }
    ensures all { (k : ℕ) → Separator text.now result k → ⊥ }
{
    let mut rest = &text[start..];
    while let Some(len) = separator_len(rest) {
        rest = &rest[len..];
    }
    text.len() - rest.len()
}

/// How many letters and digits stand in front.
fn word_len(text: &[u8]) -> usize
    ensures within { result ≤ length text.now }
    ensures inside { (k : ℕ) → k < result → is_ascii_alphanumeric (byte text.now k) ≡ true }
    ensures ends { is_ascii_alphanumeric (byte text.now result) ≡ false }
{
    text.iter()
        .position(|b| !b.is_ascii_alphanumeric())
        .unwrap_or(text.len())
}

/// The number that the bytes write, if they are digits and it is small enough.
// `parse` takes a `str`, and to see that the bytes are one is a pass of its own.
fn number(bytes: &[u8]) -> Option<u16>
    requires { 0 < length bytes.now }
    ensures { MatchOption result ((n : ℕ) → Numeral bytes.now n → ⊥) (λ n. Numeral bytes.now n) }
{
    let mut n: u32 = 0;
    for b in bytes {
        if !b.is_ascii_digit() {
            return None;
        }
        n = n * 10 + (*b - b'0') as u32;
        if n > MAX_NUMBER {
            return None;
        }
    }
    Some(n as u16)
}

/// The token that a run of letters and digits is, if it is one.
fn word(bytes: &[u8]) -> Option<Token<'_>>
    requires some { 0 < length bytes.now }
    requires word { Word bytes.now }
    ensures { MatchOption result ((t : Token) → Spells bytes.now t → ⊥) (λ t. Spells bytes.now t) }
{
    if let Some(keyword) = Keyword::of(bytes) {
        Some(Token::from(keyword))
    } else if text::is_name(bytes) {
        Some(Token::Name(bytes))
    } else {
        Some(Token::Number(number(bytes)?))
    }
}

/// The token that a single byte is, if it is a mark.
fn mark<'a>(b: u8) -> Option<Token<'a>>
    requires { is_ascii_alphanumeric b ≡ false }
    ensures { MatchOption result ((t : Token) → Spells (b ∷ []) t → ⊥) (λ t. Spells (b ∷ []) t) }
{
    match b {
        b'{' => Some(Token::OpenBrace),
        b'}' => Some(Token::CloseBrace),
        b'(' => Some(Token::OpenParen),
        b')' => Some(Token::CloseParen),
        b'[' => Some(Token::OpenBracket),
        b']' => Some(Token::CloseBracket),
        b',' => Some(Token::Comma),
        b';' => Some(Token::Semicolon),
        b':' => Some(Token::Colon),
        b'=' => Some(Token::Equals),
        _ => None,
    }
}

/// The token in front, with its length.
pub fn token(text: &[u8]) -> Option<(Token<'_>, usize)>
    ensures none { IfNone result ((j : ℕ) (t : Token) → Stands text.now 0 j t → ⊥) }
    ensures some { IfSome result (λ p. Stands text.now 0 p.1 p.0) }
{
    match text {
        [] => None,
        [b, ..] if b.is_ascii_alphanumeric() => {
            let run = &text[..word_len(text)];
            Some((word(run)?, run.len()))
        }
        [b'.', b'.', ..] => Some((Token::Dots, 2)),
        [b, ..] => Some((mark(*b)?, 1)),
    }
}
