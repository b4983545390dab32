//! The rules of the token language, on examples.
use crate::{Kind, LexFault, Lexer, Token};
use fault::{Cause, Fault, Place};
use std::test::Fail;

/// Whether the text is tokens of these kinds, with nothing but separators besides.
fn reads(text: &[u8], kinds: &[Kind]) -> bool {
    let mut lexer = Lexer::new(0, text);
    kinds.iter().all(|kind| matches!(lexer.next(), Ok(Some(token)) if token.kind() == *kind))
        && matches!(lexer.next(), Ok(None))
        && lexer.place().byte == text.len()
}

/// Reads the text to its end.
fn read_all(text: &[u8]) -> Result<(), LexFault> {
    let mut lexer = Lexer::new(0, text);
    while lexer.next()?.is_some() {}
    Ok(())
}

/// The byte of the first fault, if there is one.
fn fault_in(text: &[u8]) -> Option<usize> {
    Some(read_all(text).err()?.place.byte)
}

/// The number that the text is.
fn number_in(text: &[u8]) -> Option<u16> {
    match Lexer::new(0, text).next() {
        Ok(Some(Token::Number(n))) => Some(n),
        _ => None,
    }
}

#[test]
fn separators(rt: HostRuntime) {
    assert!(rt; reads(b"", &[]));
    assert!(rt; reads(b" \t\r\n", &[]));
    assert!(rt; reads(b"/**/", &[]));
    assert!(rt; reads(b"/*/ * /*/", &[]));
    assert!(rt; reads(b"// to the end", &[]));
    assert!(rt; reads(b"a//b\nc/*d\n*/e", &[Kind::Name, Kind::Name, Kind::Name]));
    assert_eq!(rt; fault_in(b"/*/"), Some(0));
    assert_eq!(rt; fault_in(b"/* x"), Some(0));
    assert_eq!(rt; fault_in(b"ab /* x"), Some(3));
}

#[test]
fn names(rt: HostRuntime) {
    assert!(rt; reads(b"abcdefghijklmnopqrstuvwxyzABC012", &[Kind::Name]));
    assert_eq!(rt; fault_in(b"abcdefghijklmnopqrstuvwxyzABC0123"), Some(0));
    assert!(rt;
        reads(
            b"chip Chip CHIPS x1",
            &[Kind::Name, Kind::Name, Kind::Name, Kind::Name],
        )
    );
    assert_eq!(rt; fault_in(b"a_b"), Some(1));
    assert_eq!(rt; fault_in(b"\xC3\xA9"), Some(0));
}

#[test]
fn numbers(rt: HostRuntime) {
    assert_eq!(rt; number_in(b"65535"), Some(65535));
    assert_eq!(rt; number_in(b"007"), Some(7));
    assert_eq!(rt; number_in(b"0000000000000000000042"), Some(42));
    assert_eq!(rt; fault_in(b" 65536"), Some(1));
    assert_eq!(rt; fault_in(b"7a"), Some(0));
}

#[test]
fn words_and_marks(rt: HostRuntime) {
    assert!(rt;
        reads(
            b"CHIP IN OUT PARTS",
            &[Kind::Chip, Kind::In, Kind::Out, Kind::Parts],
        )
    );
    assert!(rt;
        reads(
            b"BUILTIN CLOCKED true false",
            &[Kind::Builtin, Kind::Clocked, Kind::True, Kind::False],
        )
    );
    assert!(rt;
        reads(
            b"{}()[]",
            &[
                Kind::OpenBrace,
                Kind::CloseBrace,
                Kind::OpenParen,
                Kind::CloseParen,
                Kind::OpenBracket,
                Kind::CloseBracket,
            ],
        )
    );
    assert!(rt;
        reads(
            b",;:=",
            &[Kind::Comma, Kind::Semicolon, Kind::Colon, Kind::Equals],
        )
    );
    assert!(rt; reads(b"a..b", &[Kind::Name, Kind::Dots, Kind::Name]));
    assert_eq!(rt; fault_in(b"..."), Some(2));
    assert_eq!(rt; fault_in(b"a/b"), Some(1));
}

/// What the rules say of a text of one byte.
enum Ruling {
    Separator,
    Token(Kind),
    Fault,
}

fn ruled(b: u8) -> Ruling {
    match b {
        b' ' | b'\t' | b'\r' | b'\n' => Ruling::Separator,
        b'A'..=b'Z' | b'a'..=b'z' => Ruling::Token(Kind::Name),
        b'0'..=b'9' => Ruling::Token(Kind::Number),
        b'{' => Ruling::Token(Kind::OpenBrace),
        b'}' => Ruling::Token(Kind::CloseBrace),
        b'(' => Ruling::Token(Kind::OpenParen),
        b')' => Ruling::Token(Kind::CloseParen),
        b'[' => Ruling::Token(Kind::OpenBracket),
        b']' => Ruling::Token(Kind::CloseBracket),
        b',' => Ruling::Token(Kind::Comma),
        b';' => Ruling::Token(Kind::Semicolon),
        b':' => Ruling::Token(Kind::Colon),
        b'=' => Ruling::Token(Kind::Equals),
        _ => Ruling::Fault,
    }
}

#[test]
fn single_bytes(rt: HostRuntime) {
    for b in 0..=u8::MAX {
        let right = match ruled(b) {
            Ruling::Separator => reads(&[b], &[]),
            Ruling::Token(kind) => reads(&[b], &[kind]),
            Ruling::Fault => fault_in(&[b]) == Some(0),
        };
        assert!(rt; right);
    }
}

#[test]
fn places(rt: HostRuntime) -> Result<(), Fail> {
    let mut lexer = Lexer::new(5, b" in ?");
    assert_eq!(rt; lexer.place(), Place { entry: 5, byte: 0 });
    let _ = lexer.next();
    for _ in 0..2 {
        assert_eq!(rt; lexer.place(), Place { entry: 5, byte: 1 });
        let Err(refusal) = lexer.next() else {
            return Err(Fail::new("a token stands there"));
        };
        let fault = Fault::from(refusal);
        assert_eq!(rt; fault.cause, Cause::NoToken);
        assert_eq!(rt; fault.place, Place { entry: 5, byte: 4 });
    }
    Ok(())
}
