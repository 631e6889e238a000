//! The reserved words and the signs, in tables by length and by first byte.
ghost use Rattle.std.specs.Prelude.{◌≡◌, ℕ, List, map, filter, length, nat_eq, true, ◌==◌};
ghost use Rattle.ang_lex.specs.Bytes.{begins};
ghost use Rattle.ang_lex.specs.Fronts.{first_of_entries};
ghost use Rattle.ang_lex.specs.Words as spec;

use crate::token::TokenKind;
use ang_kinds::Prim;

static WORDS_OF_2: [(&[u8], TokenKind); 5] = [
    (b"if", TokenKind::If),
    (b"do", TokenKind::Do),
    (b"is", TokenKind::Is),
    (b"or", TokenKind::Or),
    (b"in", TokenKind::In),
];

static WORDS_OF_3: [(&[u8], TokenKind); 6] = [
    (b"int", TokenKind::Primitive(Prim::I32)),
    (b"for", TokenKind::For),
    (b"and", TokenKind::And),
    (b"xor", TokenKind::Xor),
    (b"not", TokenKind::Not),
    (b"out", TokenKind::Out),
];

static WORDS_OF_4: [(&[u8], TokenKind); 13] = [
    (b"int8", TokenKind::Primitive(Prim::I8)),
    (b"uint", TokenKind::Primitive(Prim::U32)),
    (b"bool", TokenKind::Primitive(Prim::Bool)),
    (b"void", TokenKind::Void),
    (b"true", TokenKind::True),
    (b"null", TokenKind::Null),
    (b"this", TokenKind::This),
    (b"cast", TokenKind::Cast),
    (b"from", TokenKind::From),
    (b"else", TokenKind::Else),
    (b"auto", TokenKind::Reserved),
    (b"enum", TokenKind::Reserved),
    (b"case", TokenKind::Reserved),
];

static WORDS_OF_5: [(&[u8], TokenKind); 14] = [
    (b"int16", TokenKind::Primitive(Prim::I16)),
    (b"int32", TokenKind::Primitive(Prim::I32)),
    (b"int64", TokenKind::Primitive(Prim::I64)),
    (b"uint8", TokenKind::Primitive(Prim::U8)),
    (b"false", TokenKind::False),
    (b"super", TokenKind::Super),
    (b"class", TokenKind::Class),
    (b"const", TokenKind::Const),
    (b"final", TokenKind::Final),
    (b"while", TokenKind::While),
    (b"break", TokenKind::Break),
    (b"inout", TokenKind::InOut),
    (b"float", TokenKind::Reserved),
    (b"mixin", TokenKind::Reserved),
];

static WORDS_OF_6: [(&[u8], TokenKind); 7] = [
    (b"uint16", TokenKind::Primitive(Prim::U16)),
    (b"uint32", TokenKind::Primitive(Prim::U32)),
    (b"uint64", TokenKind::Primitive(Prim::U64)),
    (b"import", TokenKind::Import),
    (b"return", TokenKind::Return),
    (b"double", TokenKind::Reserved),
    (b"switch", TokenKind::Reserved),
];

static WORDS_OF_7: [(&[u8], TokenKind); 4] = [
    (b"private", TokenKind::Private),
    (b"typedef", TokenKind::Reserved),
    (b"funcdef", TokenKind::Reserved),
    (b"default", TokenKind::Reserved),
];

static WORDS_OF_8: [(&[u8], TokenKind); 2] = [
    (b"override", TokenKind::Override),
    (b"continue", TokenKind::Continue),
];

static WORDS_OF_9: [(&[u8], TokenKind); 3] = [
    (b"interface", TokenKind::Interface),
    (b"protected", TokenKind::Protected),
    (b"namespace", TokenKind::Reserved),
];

/// The reserved words of a length.
pub fn words_of_length(len: usize) -> &'static [(&'static [u8], TokenKind)]
    ensures exact { map (λ e. (e.0.now, e.1)) result.now
        ≡ filter (λ e. nat_eq (length e.0) len) spec.reserved_words }
{
    match len {
        2 => &WORDS_OF_2,
        3 => &WORDS_OF_3,
        4 => &WORDS_OF_4,
        5 => &WORDS_OF_5,
        6 => &WORDS_OF_6,
        7 => &WORDS_OF_7,
        8 => &WORDS_OF_8,
        9 => &WORDS_OF_9,
        _ => &[],
    }
}

static GREATER_SIGNS: [(&[u8], TokenKind); 6] = [
    (b">>>=", TokenKind::ShiftRightArithmeticAssign),
    (b">>=", TokenKind::ShiftRightAssign),
    (b">>>", TokenKind::ShiftRightArithmetic),
    (b">>", TokenKind::ShiftRight),
    (b">=", TokenKind::GreaterEqual),
    (b">", TokenKind::Greater),
];

static LESS_SIGNS: [(&[u8], TokenKind); 4] = [
    (b"<<=", TokenKind::ShiftLeftAssign),
    (b"<<", TokenKind::ShiftLeft),
    (b"<=", TokenKind::LessEqual),
    (b"<", TokenKind::Less),
];

static EQUAL_SIGNS: [(&[u8], TokenKind); 2] = [
    (b"==", TokenKind::Equal),
    (b"=", TokenKind::Assign),
];

static NOT_SIGNS: [(&[u8], TokenKind); 2] = [(b"!=", TokenKind::NotEqual), (b"!", TokenKind::Not)];

static AMPERSAND_SIGNS: [(&[u8], TokenKind); 3] = [
    (b"&&", TokenKind::And),
    (b"&=", TokenKind::AmpersandAssign),
    (b"&", TokenKind::Ampersand),
];

static PIPE_SIGNS: [(&[u8], TokenKind); 3] = [
    (b"||", TokenKind::Or),
    (b"|=", TokenKind::PipeAssign),
    (b"|", TokenKind::Pipe),
];

static CARET_SIGNS: [(&[u8], TokenKind); 3] = [
    (b"^^", TokenKind::Xor),
    (b"^=", TokenKind::CaretAssign),
    (b"^", TokenKind::Caret),
];

static PLUS_SIGNS: [(&[u8], TokenKind); 3] = [
    (b"++", TokenKind::Increment),
    (b"+=", TokenKind::PlusAssign),
    (b"+", TokenKind::Plus),
];

static MINUS_SIGNS: [(&[u8], TokenKind); 3] = [
    (b"--", TokenKind::Decrement),
    (b"-=", TokenKind::MinusAssign),
    (b"-", TokenKind::Minus),
];

static STAR_SIGNS: [(&[u8], TokenKind); 2] = [
    (b"*=", TokenKind::StarAssign),
    (b"*", TokenKind::Star),
];

static SLASH_SIGNS: [(&[u8], TokenKind); 2] = [
    (b"/=", TokenKind::SlashAssign),
    (b"/", TokenKind::Slash),
];

static PERCENT_SIGNS: [(&[u8], TokenKind); 2] = [
    (b"%=", TokenKind::PercentAssign),
    (b"%", TokenKind::Percent),
];

static COLON_SIGNS: [(&[u8], TokenKind); 2] = [(b"::", TokenKind::Scope), (b":", TokenKind::Colon)];

/// The signs that begin no longer one.
static SINGLE_SIGNS: [(&[u8], TokenKind); 10] = [
    (b"~", TokenKind::Tilde),
    (b"?", TokenKind::Question),
    (b";", TokenKind::Semicolon),
    (b",", TokenKind::Comma),
    (b".", TokenKind::Dot),
    (b"(", TokenKind::LeftParen),
    (b")", TokenKind::RightParen),
    (b"{", TokenKind::LeftBrace),
    (b"}", TokenKind::RightBrace),
    (b"@", TokenKind::At),
];

/// The signs that may stand where this byte stands, the longest first.
pub fn signs_from(first: u8) -> &'static [(&'static [u8], TokenKind)]
    ensures complete { (rest : List ℕ) → begins (λ b. b == first) rest ≡ true →
        first_of_entries (map (λ e. (e.0.now, e.1)) result.now) rest
        ≡ first_of_entries spec.signs rest }
{
    match first {
        b'>' => &GREATER_SIGNS,
        b'<' => &LESS_SIGNS,
        b'=' => &EQUAL_SIGNS,
        b'!' => &NOT_SIGNS,
        b'&' => &AMPERSAND_SIGNS,
        b'|' => &PIPE_SIGNS,
        b'^' => &CARET_SIGNS,
        b'+' => &PLUS_SIGNS,
        b'-' => &MINUS_SIGNS,
        b'*' => &STAR_SIGNS,
        b'/' => &SLASH_SIGNS,
        b'%' => &PERCENT_SIGNS,
        b':' => &COLON_SIGNS,
        _ => &SINGLE_SIGNS,
    }
}
