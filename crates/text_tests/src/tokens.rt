// The tokens of texts, and a cursor over them.
use ir_lex::{Cursor, LexFault, LexKind, Mark, Token, TokenKind, next_token, number, symbol};
use std::test::Fail;
use text_forms::{FaultKind, Symbol};

fn token(kind: TokenKind, from: usize, to: usize) -> Result<Option<Token>, LexFault> {
    Ok(Some(Token { kind, from, to }))
}

fn fault(kind: LexKind, place: usize) -> Result<Option<Token>, LexFault> {
    Err(LexFault { kind, place })
}

// A text and a place, and what comes next there.
#[derive(Drop)]
struct Row<'a>(&'a [u8], usize, Result<Option<Token>, LexFault>);

#[test]
fn outside_cases(rt: HostRuntime) {
    let large = b".typedef @a = int<340282366920938463463374607431768211456>".as_slice();
    let largest = b".newhybrid $h <@hy> 340282366920938463463374607431768211455".as_slice();
    let marks = b"(){}<>[]=:&->".as_slice();
    let rows = [
        Row(b"@", 0, fault(LexKind::BadName, 0)),
        Row(b" . a", 0, fault(LexKind::BadName, 1)),
        Row(b"\x80", 0, fault(LexKind::BadByte, 0)),
        Row(large, 18, fault(LexKind::NumberTooLarge, 18)),
        Row(b".typedef @a = int<09>", 18, fault(LexKind::BadByte, 18)),
        Row(
            b".typedef @a = int<012>",
            18,
            token(TokenKind::Number, 18, 21),
        ),
        Row(
            b".typedef @a = int<012>",
            0,
            token(TokenKind::Directive, 0, 8),
        ),
        Row(largest, 19, token(TokenKind::Number, 20, 59)),
        Row(largest, 10, token(TokenKind::Object, 11, 13)),
        Row(
            b"{ kept 4294967296 stop }",
            6,
            token(TokenKind::Number, 7, 17),
        ),
        Row(b"{ kept 4294967296 stop }", 1, token(TokenKind::Word, 2, 6)),
        Row(b"0x", 0, fault(LexKind::BadByte, 0)),
        Row(b"12a", 0, fault(LexKind::BadByte, 0)),
        Row(b"a / b", 1, fault(LexKind::BadByte, 2)),
        Row(b"- 1", 0, fault(LexKind::BadByte, 0)),
        Row(b"+>", 0, fault(LexKind::BadByte, 0)),
        Row(b"-7", 0, token(TokenKind::Number, 0, 2)),
        Row(b"12//x", 0, token(TokenKind::Number, 0, 2)),
        Row(b"12//x", 2, Ok(None)),
        Row(b"", 0, Ok(None)),
        Row(b"a // \xff\x80", 1, Ok(None)),
        Row(b"a\r\nb", 1, token(TokenKind::Word, 3, 4)),
        Row(b"//a\rb\n7", 0, token(TokenKind::Number, 6, 7)),
        Row(b"%a-b.c_D->", 0, token(TokenKind::Local, 0, 9)),
        Row(b"@uvm.new_stack<", 0, token(TokenKind::Global, 0, 14)),
        Row(marks, 0, token(TokenKind::Mark(Mark::Open), 0, 1)),
        Row(marks, 1, token(TokenKind::Mark(Mark::Close), 1, 2)),
        Row(marks, 2, token(TokenKind::Mark(Mark::OpenBrace), 2, 3)),
        Row(marks, 3, token(TokenKind::Mark(Mark::CloseBrace), 3, 4)),
        Row(marks, 4, token(TokenKind::Mark(Mark::Less), 4, 5)),
        Row(marks, 5, token(TokenKind::Mark(Mark::Greater), 5, 6)),
        Row(marks, 6, token(TokenKind::Mark(Mark::OpenBracket), 6, 7)),
        Row(marks, 7, token(TokenKind::Mark(Mark::CloseBracket), 7, 8)),
        Row(marks, 8, token(TokenKind::Mark(Mark::Equals), 8, 9)),
        Row(marks, 9, token(TokenKind::Mark(Mark::Colon), 9, 10)),
        Row(marks, 10, token(TokenKind::Mark(Mark::Ampersand), 10, 11)),
        Row(marks, 11, token(TokenKind::Mark(Mark::Arrow), 11, 13)),
    ];
    for row in &rows {
        assert!(rt; row.1 <= row.0.len());
        assert_eq!(rt;
            next_token(row.0, row.1),
            row.2,
            "at {} of {:?}",
            row.1,
            row.0
        );
    }
}

// `first`, and then that many letters.
fn long(rt: &HostRuntime, first: &[u8], letters: usize) -> Result<Vec<u8>, Fail> {
    let mut text = Vec::from_slice(rt.alloc(), first)?;
    for _ in 0..letters {
        text.push(b'a')?;
    }
    Ok(text)
}

#[test]
fn tokens_of_many_bytes(rt: HostRuntime) -> Result<(), Fail> {
    let word = long(&rt, b"", 65_536)?;
    assert_eq!(rt; next_token(&word, 0), token(TokenKind::Word, 0, 65_536));
    let word = long(&rt, b"", 65_537)?;
    assert_eq!(rt; next_token(&word, 0), fault(LexKind::TooLong, 0));
    let name = long(&rt, b".typedef @", 65_536)?;
    assert!(rt; name.len() > 8);
    assert_eq!(rt; next_token(&name, 8), fault(LexKind::TooLong, 9));
    let bad_number = long(&rt, b"0", 65_535)?;
    assert_eq!(rt; next_token(&bad_number, 0), fault(LexKind::BadByte, 0));
    let bad_number = long(&rt, b"0", 65_536)?;
    assert_eq!(rt; next_token(&bad_number, 0), fault(LexKind::TooLong, 0));
    let comment = long(&rt, b"//", 65_537)?;
    assert_eq!(rt; next_token(&comment, 0), Ok(None));
    Ok(())
}

#[test]
fn numbers(rt: HostRuntime) -> Result<(), Fail> {
    let text = b"-012 +0xA0".as_slice();
    if let Some(token) = next_token(text, 0)? {
        if token.kind == TokenKind::Number {
            let number = number(text, &token);
            assert_eq!(rt; (number.negative, number.magnitude), (true, 10));
            assert_eq!(rt; symbol(text, &token), Symbol::Number);
            return Ok(());
        }
    }
    assert!(rt; false);
    Ok(())
}

#[test]
fn takes_tokens(rt: HostRuntime) -> Result<(), Fail> {
    let mut cursor = Cursor::new(b".const @k <");
    assert_eq!(rt; cursor.mark(Symbol::DotConst)?, 0);
    let name = cursor.name(rt.alloc(), &[Symbol::Global])?;
    assert_eq!(rt; (name.place, name.text.as_slice()), (7, b"@k".as_slice()));
    let choice = cursor.choice(&[Symbol::Greater, Symbol::Less])?;
    assert_eq!(rt; choice, Symbol::Less);
    Ok(())
}

#[test]
fn takes_a_number(rt: HostRuntime) -> Result<(), Fail> {
    let mut cursor = Cursor::new(b" -0x1f // x");
    let numeral = cursor.numeral()?;
    assert_eq!(rt; (numeral.place, numeral.number.magnitude), (1, 31));
    assert_eq!(rt; (cursor.symbol(), cursor.place()), (Symbol::End, 11));
    Ok(())
}

#[test]
fn stays_at_a_fault(rt: HostRuntime) {
    let cursor = Cursor::new(b" %x");
    assert!(rt; cursor.at_any(&[Symbol::Global, Symbol::Local]));
    assert_eq!(rt; cursor.ahead().spelling(), b"%x".as_slice());
    let fault = cursor.fault();
    assert_eq!(rt; (fault.kind, fault.place), (FaultKind::Unexpected, 1));
    let refusal = cursor.refusal(&[Symbol::Local]);
    assert_eq!(rt; (refusal.kind, refusal.place), (FaultKind::NotInProfile, 1));
}
