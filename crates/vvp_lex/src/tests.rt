use crate::{
    Bytes, LexFault, LexKind, Name, Spanned, Stmt, Token, byte_at, bytes_after, bytes_of, is_label,
    is_word, number_at, number_value, part_of, span, statements, text_at, text_bytes, tokens,
    tokens_after, word_at,
};
use std::test::Fail;

/// Why a file of a table here is refused.
fn fault(rt: &HostRuntime, src: &[u8]) -> Option<LexFault> {
    if 1000 < src.len() {
        return None;
    }
    match statements(rt.alloc(), src) {
        Ok(_) => None,
        Err(fault) => Some(fault),
    }
}

/// The tokens of all statements of a file, one after another.
fn all_tokens(rt: &HostRuntime, src: &[u8]) -> Result<Vec<Spanned>, Fail> {
    let mut all = Vec::new(rt.alloc());
    if 1000 < src.len() {
        return Ok(all);
    }
    let found = statements(rt.alloc(), src)?;
    for stmt in &found {
        for token in &tokens(rt.alloc(), src, stmt)? {
            all.push(*token)?;
        }
    }
    Ok(all)
}

/// The bytes that the first text of a file stands for.
fn first_text(rt: &HostRuntime, src: &[u8]) -> Result<Option<Bytes>, Fail> {
    if 1000 < src.len() {
        return Ok(None);
    }
    let found = statements(rt.alloc(), src)?;
    for stmt in &found {
        for spanned in &tokens(rt.alloc(), src, stmt)? {
            if let Token::Text = spanned.token {
                return Ok(Some(text_bytes(rt.alloc(), src, span(*spanned))?));
            }
        }
    }
    Ok(None)
}

/// `C4<`, so many zeros, and what follows them.
fn constant(rt: &HostRuntime, zeros: usize, end: &[u8]) -> Result<Vec<u8>, Fail> {
    let mut src = Vec::from_slice(rt.alloc(), b"C4<")?;
    for _ in 0..zeros {
        src.push(b'0')?;
    }
    src.extend_from_slice(end)?;
    Ok(src)
}

fn refused(line: u32, kind: LexKind) -> Option<LexFault> {
    Some(LexFault::Refused { line, kind })
}

fn spanned(token: Token, from: u32, to: u32) -> Spanned {
    Spanned { token, from, to }
}

/// The number that a text of digits alone writes.
fn number(digits: &[u8]) -> Option<u64> {
    if digits.iter().all(|b| b.is_ascii_digit()) {
        number_value(digits)
    } else {
        None
    }
}

#[test]
fn statements_of_a_file(rt: HostRuntime) -> Result<(), Fail> {
    let src: &[u8] =
        b"# one;\n:ivl_version \"12.0\";\nS_1 .scope module, \"m\" \"m\" 2 1; rest \" ;\n  %ix/load\n# within;\n 4, 1, 0 ;;\n#";
    let found = statements(rt.alloc(), src)?;
    let expected = [
        Stmt {
            from: 7,
            to: 26,
            line: 2,
            column_one: true,
        },
        Stmt {
            from: 28,
            to: 58,
            line: 3,
            column_one: true,
        },
        Stmt {
            from: 71,
            to: 99,
            line: 4,
            column_one: false,
        },
    ];
    assert_eq!(rt; found.as_slice(), expected.as_slice());
    Ok(())
}

#[test]
fn faults(rt: HostRuntime) {
    let bad = LexKind::BadCharacter;
    let rows: [(&[u8], Option<LexFault>); 33] = [
        // No statement, or one without tokens.
        (b"", None),
        (b" \t\r\n", None),
        (b"# a @ \"\n#;", None),
        (b";", None),
        // What follows a statement on its line is a comment, and so is a line that begins with `#`.
        (b"a; \" @ 1b\n;\n", None),
        (b"a;#\n# @\n;", None),
        (b"a\n# @ \" ;\n b;", None),
        // Any other byte, or a number or a vector that isn't whole. The statement's line counts, not the fault's.
        (b"a @;", refused(1, bad)),
        (b"a;\n\n b\n \x80;", refused(3, bad)),
        (b"a #;", refused(1, bad)),
        (b"1b;", refused(1, bad)),
        (b"1\\;", refused(1, bad)),
        (b"99999999999999999999a;", refused(1, bad)),
        (b"C4<01;", refused(1, bad)),
        (b"C4<01", refused(1, bad)),
        (b"C4<02>;", refused(1, bad)),
        (b"4'b", refused(1, bad)),
        (b"4'sb;", refused(1, bad)),
        (b"4'x;", refused(1, bad)),
        (b"18446744073709551616'x;", refused(1, bad)),
        // The line ends within a string.
        (b"a \"b\n\";", refused(1, LexKind::OpenString)),
        (b"a \"b;\nc;", refused(1, LexKind::OpenString)),
        (b"a \"b\\\n\";", refused(1, LexKind::OpenString)),
        (b"a \"b\\\r\";", None),
        (b"a \"\\\"\\\"\\\";", refused(1, LexKind::OpenString)),
        (b"S_1 .scope module, \"m", refused(1, LexKind::OpenString)),
        // The file ends within a statement; a fault of its tokens comes first.
        (b"S_1 .scope module", refused(1, LexKind::OpenStatement)),
        (b"a;\n b\n# ;\n", refused(2, LexKind::OpenStatement)),
        (b"a;\n b 1c", refused(2, bad)),
        (b"18446744073709551615;", None),
        (
            b"18446744073709551616;",
            refused(1, LexKind::NumberTooLarge),
        ),
        (
            b"18446744073709551616'b0;",
            refused(1, LexKind::NumberTooLarge),
        ),
        // The first fault by place.
        (
            b"a 18446744073709551616 @ \"b",
            refused(1, LexKind::NumberTooLarge),
        ),
    ];
    for (src, expected) in rows {
        assert_eq!(rt; fault(&rt, src), expected, "at {src:?}");
    }
}

#[test]
fn widths(rt: HostRuntime) -> Result<(), Fail> {
    let wide = refused(1, LexKind::VectorTooWide);
    assert_eq!(rt; fault(&rt, &constant(&rt, 128, b">;")?), None);
    assert_eq!(rt; fault(&rt, &constant(&rt, 129, b">;")?), wide);
    assert_eq!(rt;
        fault(&rt, &constant(&rt, 129, b"2>;")?),
        refused(1, LexKind::BadCharacter)
    );
    Ok(())
}

#[test]
fn tokens_of_a_file(rt: HostRuntime) -> Result<(), Fail> {
    let rows: [(&[u8], &[Spanned]); 6] = [
        (b"# a\n;", &[]),
        (
            b"S_1.a\\/$b %ix/load:c;",
            &[
                spanned(Token::Word, 0, 9),
                spanned(Token::Word, 10, 18),
                spanned(Token::Word, 18, 20),
            ],
        ),
        (
            b"12%x 007, 18446744073709551615;",
            &[
                spanned(Token::Number(12), 0, 2),
                spanned(Token::Word, 2, 4),
                spanned(Token::Number(7), 5, 8),
                spanned(Token::Punct(b','), 8, 9),
                spanned(Token::Number(u64::MAX), 10, 30),
            ],
        ),
        (
            b"\"a;\\\"b\"\"c\";",
            &[spanned(Token::Text, 0, 7), spanned(Token::Text, 7, 10)],
        ),
        (
            b"C4<>c4<01xzXZ>a C4 <4'sb01xZ2 0'b1;",
            &[
                spanned(Token::Const, 0, 4),
                spanned(Token::Const, 4, 14),
                spanned(Token::Word, 14, 15),
                spanned(Token::Word, 16, 18),
                spanned(Token::Punct(b'<'), 19, 20),
                spanned(Token::Based, 20, 28),
                spanned(Token::Number(2), 28, 29),
                spanned(Token::Based, 30, 34),
            ],
        ),
        (
            b"a\n# b;\n c;-; =;\n+(2);",
            &[
                spanned(Token::Word, 0, 1),
                spanned(Token::Word, 8, 9),
                spanned(Token::Punct(b'+'), 16, 17),
                spanned(Token::Punct(b'('), 17, 18),
                spanned(Token::Number(2), 18, 19),
                spanned(Token::Punct(b')'), 19, 20),
            ],
        ),
    ];
    for (src, expected) in rows {
        let found = all_tokens(&rt, src)?;
        assert_eq!(rt; found.as_slice(), expected, "at {src:?}");
    }
    Ok(())
}

#[test]
fn escapes(rt: HostRuntime) -> Result<(), Fail> {
    let text = first_text(
        &rt,
        b"t \"a\\n\\t\\\"\\\\\\1\\101\\400\\009\\7777\\8\\q\\\r\";",
    )?;
    let expected: &[u8] = b"a\n\t\"\\\x01A\x00\x009\xff78q\r";
    let mut longer = Bytes::from_slice(rt.alloc(), expected)?;
    assert_eq!(rt; text.map(|bytes| bytes.as_slice() == expected), Some(true));
    longer.push(b'!')?;
    assert_eq!(rt; longer.copy(rt.alloc())?.as_slice().last(), Some(&b'!'));
    assert_eq!(rt; Bytes::new(rt.alloc()).as_slice(), b"".as_slice());
    assert_eq!(rt; part_of(b"%pushi", 1, 5), b"push".as_slice());
    Ok(())
}

#[test]
fn places(rt: HostRuntime) -> Result<(), Fail> {
    let src = b"T_0 %op 12, \"t\";".as_slice();
    let found = all_tokens(&rt, src)?;
    let bytes = |name: Name| bytes_of(src, name);
    assert_eq!(rt; word_at(&found, 1).map(bytes), Some(b"%op".as_slice()));
    assert_eq!(rt; word_at(&found, 2), None);
    assert_eq!(rt; number_at(&found, 2), Some(12));
    assert_eq!(rt; number_at(&found, 5), None);
    assert_eq!(rt; text_at(&found, 4).map(bytes), Some(b"\"t\"".as_slice()));
    assert_eq!(rt; number_at(tokens_after(&found, 2), 0), Some(12));
    assert!(rt; tokens_after(&found, 6).is_empty());
    assert_eq!(rt; bytes_after(src, 12), b"\"t\";".as_slice());
    assert_eq!(rt; byte_at(src, 4), b'%');
    assert_eq!(rt; byte_at(src, 99), 0);
    assert_eq!(rt; number(b"018446744073709551615"), Some(u64::MAX));
    assert_eq!(rt; number(b"18446744073709551616"), None);
    Ok(())
}

#[test]
fn labels(rt: HostRuntime) -> Result<(), Fail> {
    let rows: [(&[u8], bool); 7] = [
        (b"T_0 ;", true),
        (b"_a 1;", true),
        (b"$b ;", true),
        (b"\\c ;", true),
        (b"%op ;", false),
        (b".var ;", false),
        (b"12 a;", false),
    ];
    for (src, label) in rows {
        for first in all_tokens(&rt, src)?.iter().take(1) {
            assert_eq!(rt; is_label(src, true, *first), label, "at {src:?}");
            assert!(rt; !is_label(src, false, *first));
            assert_eq!(rt; is_word(first.token), src != b"12 a;".as_slice());
        }
    }
    Ok(())
}
