//! What the tokens of a text are, on worked examples.

use ang_kinds::{Place, Prim};
use ang_lex::TokenKind::{
    Ampersand, AmpersandAssign, And, Assign, At, Break, Caret, CaretAssign, Cast, Class, Colon,
    Comma, Const, Continue, Decrement, Do, Dot, Else, Equal, False, Final, For, From, Greater,
    GreaterEqual, If, Import, In, InOut, Increment, Interface, Is, LeftBrace, LeftParen, Less,
    LessEqual, Minus, MinusAssign, Name, Not, NotEqual, NotIs, Null, Number, Or, Out, Override,
    Percent, PercentAssign, Pipe, PipeAssign, Plus, PlusAssign, Primitive, Private, Protected,
    Question, Reserved, Return, RightBrace, RightParen, Scope, Semicolon, ShiftLeft,
    ShiftLeftAssign, ShiftRight, ShiftRightArithmetic, ShiftRightArithmeticAssign,
    ShiftRightAssign, Slash, SlashAssign, Star, StarAssign, Super, Text, This, Tilde, True, Void,
    While, Xor,
};
use ang_lex::{LexError, Span, Token, TokenKind, is_name, lex, number};
use std::alloc::{AllocError, Global};

fn place(line: u32, column: u32) -> Place {
    Place {
        sect: 0,
        line,
        column,
    }
}

/// A token's bytes and its kind.
type Spelling = (&'static [u8], TokenKind);

/// The words of primitive types.
const TYPES: &[Spelling] = &[
    (b"int8", Primitive(Prim::I8)),
    (b"int16", Primitive(Prim::I16)),
    (b"int", Primitive(Prim::I32)),
    (b"int32", Primitive(Prim::I32)),
    (b"int64", Primitive(Prim::I64)),
    (b"uint8", Primitive(Prim::U8)),
    (b"uint16", Primitive(Prim::U16)),
    (b"uint", Primitive(Prim::U32)),
    (b"uint32", Primitive(Prim::U32)),
    (b"uint64", Primitive(Prim::U64)),
    (b"bool", Primitive(Prim::Bool)),
];

/// The other words of the grammar.
const WORDS: &[Spelling] = &[
    (b"void", Void),
    (b"true", True),
    (b"false", False),
    (b"null", Null),
    (b"this", This),
    (b"super", Super),
    (b"cast", Cast),
    (b"class", Class),
    (b"interface", Interface),
    (b"import", Import),
    (b"from", From),
    (b"private", Private),
    (b"protected", Protected),
    (b"const", Const),
    (b"final", Final),
    (b"override", Override),
    (b"if", If),
    (b"else", Else),
    (b"while", While),
    (b"for", For),
    (b"do", Do),
    (b"break", Break),
    (b"continue", Continue),
    (b"return", Return),
    (b"is", Is),
    (b"and", And),
    (b"or", Or),
    (b"xor", Xor),
    (b"not", Not),
    (b"in", In),
    (b"out", Out),
    (b"inout", InOut),
];

/// The reserved words that the grammar does not use.
const RESERVED: &[Spelling] = &[
    (b"auto", Reserved),
    (b"float", Reserved),
    (b"double", Reserved),
    (b"enum", Reserved),
    (b"typedef", Reserved),
    (b"funcdef", Reserved),
    (b"namespace", Reserved),
    (b"switch", Reserved),
    (b"case", Reserved),
    (b"default", Reserved),
    (b"mixin", Reserved),
];

/// The signs of several characters, but `!is`.
const LONG_SIGNS: &[Spelling] = &[
    (b">>>=", ShiftRightArithmeticAssign),
    (b"<<=", ShiftLeftAssign),
    (b">>=", ShiftRightAssign),
    (b">>>", ShiftRightArithmetic),
    (b"<<", ShiftLeft),
    (b">>", ShiftRight),
    (b"<=", LessEqual),
    (b">=", GreaterEqual),
    (b"==", Equal),
    (b"!=", NotEqual),
    (b"&&", And),
    (b"||", Or),
    (b"^^", Xor),
    (b"++", Increment),
    (b"--", Decrement),
    (b"+=", PlusAssign),
    (b"-=", MinusAssign),
    (b"*=", StarAssign),
    (b"/=", SlashAssign),
    (b"%=", PercentAssign),
    (b"&=", AmpersandAssign),
    (b"|=", PipeAssign),
    (b"^=", CaretAssign),
    (b"::", Scope),
];

/// The other signs.
const SIGNS: &[Spelling] = &[
    (b"+", Plus),
    (b"-", Minus),
    (b"*", Star),
    (b"/", Slash),
    (b"%", Percent),
    (b"&", Ampersand),
    (b"|", Pipe),
    (b"^", Caret),
    (b"~", Tilde),
    (b"!", Not),
    (b"<", Less),
    (b">", Greater),
    (b"=", Assign),
    (b"?", Question),
    (b":", Colon),
    (b";", Semicolon),
    (b",", Comma),
    (b".", Dot),
    (b"(", LeftParen),
    (b")", RightParen),
    (b"{", LeftBrace),
    (b"}", RightBrace),
    (b"@", At),
    (b"!is", NotIs),
];

/// One token of each other kind.
const OTHERS: &[Spelling] = &[
    (b"a_1", Name),
    (b"_", Name),
    (b"0x1F", Number),
    (b"\"b c\"", Text),
];

fn is_whole(token: Token, kind: TokenKind, length: usize) -> bool {
    token.kind == kind
        && token.span.start == 0
        && token.span.end as usize == length
        && token.place == place(1, 1)
}

/// Whether the text is one token of this kind.
fn is_one_token(alloc: Global, text: &[u8], kind: TokenKind) -> bool {
    let Ok(tokens) = lex(alloc, text, 0) else {
        return false;
    };
    match tokens.as_slice() {
        [token] => is_whole(*token, kind, text.len()),
        _ => false,
    }
}

/// The first that is not one token of its kind.
fn misread(alloc: Global, rows: &[Spelling]) -> Option<&'static [u8]> {
    for row in rows {
        let (text, kind) = *row;
        if !is_one_token(alloc, text, kind) {
            return Some(text);
        }
    }
    None
}

#[test]
fn each_word_is_one_token(rt: HostRuntime) {
    let types = misread(rt.alloc(), TYPES);
    assert!(rt; types.is_none(), "{types:?}");
    let words = misread(rt.alloc(), WORDS);
    assert!(rt; words.is_none(), "{words:?}");
    let reserved = misread(rt.alloc(), RESERVED);
    assert!(rt; reserved.is_none(), "{reserved:?}");
}

#[test]
fn each_sign_is_one_token(rt: HostRuntime) {
    let long = misread(rt.alloc(), LONG_SIGNS);
    assert!(rt; long.is_none(), "{long:?}");
    let signs = misread(rt.alloc(), SIGNS);
    assert!(rt; signs.is_none(), "{signs:?}");
    let others = misread(rt.alloc(), OTHERS);
    assert!(rt; others.is_none(), "{others:?}");
}

/// Why a text has no tokens.
#[derive(Clone, Copy)]
enum Why {
    BadByte,
    BadNumber,
    OpenComment,
    TooLong,
}

/// How many tokens a text has, or why it has none, with the line and the column of that.
#[derive(Clone, Copy)]
enum Want {
    Tokens(usize),
    Fault(Why, u32, u32),
}

fn is_fault(fault: LexError, why: Why, at: Place) -> bool {
    match (fault, why) {
        (LexError::BadByte(found), Why::BadByte)
        | (LexError::BadNumber(found), Why::BadNumber)
        | (LexError::OpenComment(found), Why::OpenComment)
        | (LexError::TooLong(found), Why::TooLong) => found == at,
        _ => false,
    }
}

fn is_wanted(found: &Result<Vec<Token>, LexError>, want: Want) -> bool {
    match (found, want) {
        (Ok(tokens), Want::Tokens(count)) => tokens.len() == count,
        (Err(fault), Want::Fault(why, line, column)) => is_fault(*fault, why, place(line, column)),
        _ => false,
    }
}

fn is_so(alloc: Global, text: &[u8], want: Want) -> bool {
    is_wanted(&lex(alloc, text, 0), want)
}

const FAULTS: &[(&[u8], Why, u32, u32)] = &[
    (b"int a; # b", Why::BadByte, 1, 8),
    (b"void m(){ 1x; }", Why::BadNumber, 1, 11),
    (b"/* cut", Why::OpenComment, 1, 1),
    (b"a\n /*/", Why::OpenComment, 2, 2),
    (b"0x", Why::BadNumber, 1, 1),
    (b"0b2", Why::BadNumber, 1, 1),
    (b"1.5", Why::BadNumber, 1, 1),
    (b"1_", Why::BadNumber, 1, 1),
    (b"18446744073709551616", Why::BadNumber, 1, 1),
    (b"a \"b", Why::BadByte, 1, 3),
    (b"\"a\\\"", Why::BadByte, 1, 1),
    (b"a\r\xEF", Why::BadByte, 1, 3),
    (b" \xEF\xBB\xBF", Why::BadByte, 1, 2),
    (b"\xEF\xBB\xBF#", Why::BadByte, 1, 4),
];

#[test]
fn faults_have_their_places(rt: HostRuntime) {
    for row in FAULTS {
        let (text, why, line, column) = *row;
        let want = Want::Fault(why, line, column);
        assert!(rt; is_so(rt.alloc(), text, want), "{text:?}");
    }
}

/// Tokens of section 7 after a mark of the bytes' order, a comment, a CR, an LF and a tab: their first and last bytes,
/// their lines and columns.
const PLACES: &[(u32, u32, u32, u32)] = &[(3, 4, 1, 4), (13, 14, 2, 2), (20, 21, 2, 9)];

fn is_placed(token: Token, row: (u32, u32, u32, u32)) -> bool {
    let (start, end, line, column) = row;
    let place = Place {
        sect: 7,
        line,
        column,
    };
    token.kind == Name && token.span == Span { start, end } && token.place == place
}

/// The first token that does not stand where it should, by number.
fn misplaced(tokens: &[Token]) -> Option<usize> {
    for (i, token) in tokens.iter().enumerate() {
        match PLACES.get(i) {
            Some(row) if is_placed(*token, *row) => {}
            _ => return Some(i),
        }
    }
    if tokens.len() == PLACES.len() {
        None
    } else {
        Some(tokens.len())
    }
}

fn misplaced_in(alloc: Global, text: &[u8]) -> Option<usize> {
    match &lex(alloc, text, 7) {
        Ok(tokens) => misplaced(tokens),
        Err(_) => Some(0),
    }
}

#[test]
fn places_count_lines_and_bytes(rt: HostRuntime) {
    let wrong = misplaced_in(rt.alloc(), b"\xEF\xBB\xBFa // b\rc\n\td/*/ */e");
    assert!(rt; wrong.is_none(), "token {wrong:?}");
}

fn are_kinds(tokens: &[Token], kinds: &[TokenKind]) -> bool {
    for (i, token) in tokens.iter().enumerate() {
        if kinds.get(i).copied() != Some(token.kind) {
            return false;
        }
    }
    tokens.len() == kinds.len()
}

fn has_kinds(alloc: Global, text: &[u8], kinds: &[TokenKind]) -> bool {
    match &lex(alloc, text, 0) {
        Ok(tokens) => are_kinds(tokens, kinds),
        Err(_) => false,
    }
}

/// Texts whose tokens are as long as they can be.
const LONGEST: &[(&[u8], &[TokenKind])] = &[
    (b">>>=", &[ShiftRightArithmeticAssign]),
    (b">>>>=", &[ShiftRightArithmetic, GreaterEqual]),
    (b"a!is b", &[Name, NotIs, Name]),
    (b"a!isb", &[Name, Not, Name]),
    (b"+++", &[Increment, Plus]),
    (b"intx int8_ 0X1f\"\"", &[Name, Name, Number, Text]),
];

#[test]
fn the_longest_token_is_taken(rt: HostRuntime) {
    for row in LONGEST {
        let (text, kinds) = *row;
        assert!(rt; has_kinds(rt.alloc(), text, kinds), "{text:?}");
    }
}

/// `before`, a byte `count` times, and `behind`.
fn run(
    alloc: Global,
    before: &[u8],
    b: u8,
    count: usize,
    behind: &[u8],
) -> Result<Vec<u8>, AllocError> {
    let mut text = Vec::new(alloc);
    text.extend_from_slice(before)?;
    for _ in 0..count {
        text.push(b)?;
    }
    text.extend_from_slice(behind)?;
    Ok(text)
}

/// What stands in front of a run of one byte and after it, the byte, how often it stands there, and what is wanted.
type Run = (&'static [u8], &'static [u8], u8, usize, Want);

fn run_is_so(alloc: Global, row: Run) -> bool {
    let (before, behind, b, times, want) = row;
    let Ok(text) = run(alloc, before, b, times, behind) else {
        return false;
    };
    is_so(alloc, &text, want)
}

const RUNS: &[Run] = &[
    // a token's bytes after `int `
    (b"int ", b";", b'a', 255, Want::Tokens(3)),
    (b"int ", b";", b'a', 256, Want::Fault(Why::TooLong, 1, 5)),
    (b"int ", b";", b'0', 255, Want::Tokens(3)),
    (b"int ", b";", b'9', 255, Want::Fault(Why::BadNumber, 1, 5)),
    (b"int ", b";", b'9', 256, Want::Fault(Why::TooLong, 1, 5)),
    // a section's bytes
    (b"", b"", b'\n', 65_537, Want::Fault(Why::TooLong, 1, 1)),
    (b"", b"", b'\n', 65_536, Want::Tokens(0)),
    // texts count their quotes
    (b"\"", b"", b'a', 254, Want::Fault(Why::BadByte, 1, 1)),
    (b"\"", b"\"", b'a', 253, Want::Tokens(1)),
    (b"\"", b"\"", b'a', 254, Want::Fault(Why::TooLong, 1, 1)),
];

#[test]
fn limits_are_met_and_no_more(rt: HostRuntime) {
    for (i, row) in RUNS.iter().enumerate() {
        assert!(rt; run_is_so(rt.alloc(), *row), "row {i}");
    }
}

const NUMBERS: &[(&[u8], Prim, u64)] = &[
    (b"0", Prim::I32, 0),
    (b"007", Prim::I32, 7),
    (b"2147483647", Prim::I32, 2_147_483_647),
    (b"2147483648", Prim::I64, 2_147_483_648),
    (b"9223372036854775807", Prim::I64, 9_223_372_036_854_775_807),
    (b"9223372036854775808", Prim::U64, 9_223_372_036_854_775_808),
    (
        b"18446744073709551615",
        Prim::U64,
        18_446_744_073_709_551_615,
    ),
    (b"0d2147483648", Prim::I64, 2_147_483_648),
    (b"0D10", Prim::I32, 10),
    (b"0x10", Prim::U32, 16),
    (b"0XfFFFffff", Prim::U32, 4_294_967_295),
    (b"0x100000000", Prim::U64, 4_294_967_296),
    (b"0o17", Prim::U32, 15),
    (b"0B101", Prim::U32, 5),
    (b"x", Prim::I32, 0),
];

#[test]
fn numbers_have_types_and_values(rt: HostRuntime) {
    for row in NUMBERS {
        let (text, ty, value) = *row;
        assert!(rt; number(text) == ang_lex::Number { ty, value }, "{text:?}");
    }
}

/// Whether a name of `length` bytes is one.
fn is_long_name(alloc: Global, length: usize) -> Option<bool> {
    match &run(alloc, b"", b'a', length, b"") {
        Ok(name) => Some(is_name(name)),
        Err(_) => None,
    }
}

/// Texts, and whether each is a name.
const NAMES: &[(&[u8], bool)] = &[
    (b"a", true),
    (b"_9", true),
    (b"Int", true),
    (b"int", false),
    (b"mixin", false),
    (b"", false),
    (b"9a", false),
    (b"a b", false),
];

#[test]
fn names_are_identifiers(rt: HostRuntime) {
    for row in NAMES {
        let (text, is) = *row;
        assert!(rt; is_name(text) == is, "{text:?}");
    }
    assert!(rt; is_long_name(rt.alloc(), 255) == Some(true), "255 bytes");
    assert!(rt; is_long_name(rt.alloc(), 256) == Some(false), "256 bytes");
}
