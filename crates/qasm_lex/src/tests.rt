// Texts with their tokens, cut by hand.
use crate::Kind::{
    Comma, Ident, LeftBrace, LeftBracket, LeftParen, Number, Other, Quoted, RightBrace,
    RightBracket, RightParen, Semi,
};
use crate::{Kind, LexFault, lex};

// A token's kind, its start and its end.
type Cut = (Kind, usize, usize);

const TEXTS: [(&[u8], &[Cut]); 33] = [
    (b"", &[]),
    (b" \t\r\n", &[]),
    (b"//", &[]),
    (b"// no line feed", &[]),
    (b"//\r;", &[]),
    (b"a//b", &[(Ident, 0, 1)]),
    (b"a//b\nc", &[(Ident, 0, 1), (Ident, 5, 6)]),
    (b"// \x00\x80\xff\"\n;", &[(Semi, 8, 9)]),
    (b"a\r\nb", &[(Ident, 0, 1), (Ident, 3, 4)]),
    (b"/ /", &[(Other, 0, 1), (Other, 2, 3)]),
    (b"a/b", &[(Ident, 0, 1), (Other, 1, 2), (Ident, 2, 3)]),
    (b"_", &[(Ident, 0, 1)]),
    (b"_a1_Z9", &[(Ident, 0, 6)]),
    (b"9a", &[(Number, 0, 1), (Ident, 1, 2)]),
    (b"1e5", &[(Number, 0, 1), (Ident, 1, 3)]),
    (b"007", &[(Number, 0, 3)]),
    (b"2.0", &[(Number, 0, 3)]),
    (b"2.0;", &[(Number, 0, 3), (Semi, 3, 4)]),
    (b"12.345", &[(Number, 0, 6)]),
    (b"2.", &[(Number, 0, 1), (Other, 1, 2)]),
    (b"2.a", &[(Number, 0, 1), (Other, 1, 2), (Ident, 2, 3)]),
    (b".", &[(Other, 0, 1)]),
    (b".5", &[(Other, 0, 1), (Number, 1, 2)]),
    (b"1.2.3", &[(Number, 0, 3), (Other, 3, 4), (Number, 4, 5)]),
    (b"\"\"", &[(Quoted, 0, 2)]),
    (b"\"qelib1.inc\";", &[(Quoted, 0, 12), (Semi, 12, 13)]),
    (b"\"//\"", &[(Quoted, 0, 4)]),
    (b"\"a\r\x80\"", &[(Quoted, 0, 5)]),
    (b"\"a\"\"b\"", &[(Quoted, 0, 3), (Quoted, 3, 6)]),
    (
        b";,[]{}()",
        &[
            (Semi, 0, 1),
            (Comma, 1, 2),
            (LeftBracket, 2, 3),
            (RightBracket, 3, 4),
            (LeftBrace, 4, 5),
            (RightBrace, 5, 6),
            (LeftParen, 6, 7),
            (RightParen, 7, 8),
        ],
    ),
    (
        b"+-*/^>=.",
        &[
            (Other, 0, 1),
            (Other, 1, 2),
            (Other, 2, 3),
            (Other, 3, 4),
            (Other, 4, 5),
            (Other, 5, 6),
            (Other, 6, 7),
            (Other, 7, 8),
        ],
    ),
    (b"->", &[(Other, 0, 1), (Other, 1, 2)]),
    (
        b"qreg q[2];\n",
        &[
            (Ident, 0, 4),
            (Ident, 5, 6),
            (LeftBracket, 6, 7),
            (Number, 7, 8),
            (RightBracket, 8, 9),
            (Semi, 9, 10),
        ],
    ),
];

/// Each text is cut into the tokens beside it.
#[test]
fn texts_are_cut(rt: HostRuntime) {
    for (text, want) in TEXTS {
        let tokens = lex(rt.alloc(), text).expect(&rt, "has tokens");
        assert_eq!(rt; tokens.len(), want.len(), "in {text:?}");
        for (token, cut) in tokens.iter().zip(want) {
            assert_eq!(rt; (token.kind, token.start, token.end), *cut, "in {text:?}");
        }
    }
}

const BAD: [(&[u8], usize); 14] = [
    (b"#", 0),
    (b"\x00", 0),
    (b"\x80", 0),
    (b"a\xff", 1),
    (b"\"", 0),
    (b"\"a", 0),
    (b"\"a\nb\"", 0),
    (b"\"a\"\"", 3),
    (b"x \"y", 2),
    (b"q#", 1),
    (b"; ;\n!;#", 4),
    (b"//x\n@", 4),
    (b"a\x0bb", 1),
    (b"1.5.\"", 4),
];

/// Each text has its first bad byte at the place beside it.
#[test]
fn bad_bytes_are_found(rt: HostRuntime) {
    for (text, place) in BAD {
        assert_eq!(rt;
            lex(rt.alloc(), text).err(),
            Some(LexFault::BadByte(place)),
            "in {text:?}"
        );
    }
}

const GOOD: &[u8] =
    b" \t\n\r;,[]{}()+-*/^>=.0123456789_ABCDEFGHIJKLMNOPQRSTUVWXYZabcdefghijklmnopqrstuvwxyz";

/// A byte alone is a text with a token or a blank, or it is bad.
#[test]
fn every_byte_is_good_or_bad(rt: HostRuntime) {
    for byte in 0..=255 {
        let fault = lex(rt.alloc(), &[byte]).err();
        if GOOD.contains(&byte) {
            assert_eq!(rt; fault, None, "at {byte}");
        } else {
            assert_eq!(rt; fault, Some(LexFault::BadByte(0)), "at {byte}");
        }
    }
}
