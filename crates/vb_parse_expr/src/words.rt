// What a single token means in an expression.
ghost use Rattle.std.specs.Prelude.{◌≡◌};
ghost use Rattle.vb_parse_expr.specs.Words as spec;

use vb_syntax::{
    BinaryOperator, BuiltInTypeName, CastOperator, Keyword, PrimitiveTypeName, RelationalOperator,
    Symbol, Token, UnaryOperator,
};
use vb_text::Name;

pub fn name_of(token: &Token) -> Option<Name>
    ensures { result ≡ spec.name_of token.now }
{
    match token {
        Token::Name(name) | Token::EscapedName(name) => Some(*name),
        _ => None,
    }
}

fn word_type(word: Keyword) -> Option<BuiltInTypeName>
    ensures { result ≡ spec.word_type word }
{
    match word {
        Keyword::Boolean => Some(BuiltInTypeName::Primitive(PrimitiveTypeName::Boolean)),
        Keyword::Byte => Some(BuiltInTypeName::Primitive(PrimitiveTypeName::Byte)),
        Keyword::SByte => Some(BuiltInTypeName::Primitive(PrimitiveTypeName::SByte)),
        Keyword::Short => Some(BuiltInTypeName::Primitive(PrimitiveTypeName::Short)),
        Keyword::UShort => Some(BuiltInTypeName::Primitive(PrimitiveTypeName::UShort)),
        Keyword::Integer => Some(BuiltInTypeName::Primitive(PrimitiveTypeName::Integer)),
        Keyword::UInteger => Some(BuiltInTypeName::Primitive(PrimitiveTypeName::UInteger)),
        Keyword::Long => Some(BuiltInTypeName::Primitive(PrimitiveTypeName::Long)),
        Keyword::ULong => Some(BuiltInTypeName::Primitive(PrimitiveTypeName::ULong)),
        Keyword::Char => Some(BuiltInTypeName::Primitive(PrimitiveTypeName::Char)),
        Keyword::String => Some(BuiltInTypeName::Primitive(PrimitiveTypeName::String)),
        Keyword::Object => Some(BuiltInTypeName::Object),
        _ => None,
    }
}

pub fn type_of(token: &Token) -> Option<BuiltInTypeName>
    ensures { result ≡ spec.type_of token.now }
{
    match token {
        Token::Keyword(word) => word_type(*word),
        _ => None,
    }
}

fn word_cast(word: Keyword) -> Option<PrimitiveTypeName>
    ensures { result ≡ spec.word_cast word }
{
    match word {
        Keyword::CBool => Some(PrimitiveTypeName::Boolean),
        Keyword::CByte => Some(PrimitiveTypeName::Byte),
        Keyword::CChar => Some(PrimitiveTypeName::Char),
        Keyword::CInt => Some(PrimitiveTypeName::Integer),
        Keyword::CLng => Some(PrimitiveTypeName::Long),
        Keyword::CSByte => Some(PrimitiveTypeName::SByte),
        Keyword::CShort => Some(PrimitiveTypeName::Short),
        Keyword::CStr => Some(PrimitiveTypeName::String),
        Keyword::CUInt => Some(PrimitiveTypeName::UInteger),
        Keyword::CULng => Some(PrimitiveTypeName::ULong),
        Keyword::CUShort => Some(PrimitiveTypeName::UShort),
        _ => None,
    }
}

pub fn primitive_cast(token: &Token) -> Option<PrimitiveTypeName>
    ensures { result ≡ spec.primitive_cast token.now }
{
    match token {
        Token::Keyword(word) => word_cast(*word),
        _ => None,
    }
}

pub fn cast_operator(token: &Token) -> Option<CastOperator>
    ensures { result ≡ spec.cast_operator token.now }
{
    match token {
        Token::Keyword(Keyword::CType) => Some(CastOperator::CType),
        Token::Keyword(Keyword::DirectCast) => Some(CastOperator::DirectCast),
        Token::Keyword(Keyword::TryCast) => Some(CastOperator::TryCast),
        _ => None,
    }
}

/// The operator before an operand, and its strength, 1 for the strongest.
pub fn prefix_of(token: &Token) -> Option<(UnaryOperator, u8)>
    ensures { result ≡ spec.prefix_of token.now }
{
    match token {
        Token::Symbol(Symbol::Plus) => Some((UnaryOperator::Plus, 1)),
        Token::Symbol(Symbol::Minus) => Some((UnaryOperator::Minus, 1)),
        Token::Keyword(Keyword::Not) => Some((UnaryOperator::Not, 9)),
        _ => None,
    }
}

fn sign_between(sign: Symbol) -> Option<(BinaryOperator, u8)>
    ensures { result ≡ spec.sign_between sign }
{
    match sign {
        Symbol::Times => Some((BinaryOperator::Multiply, 2)),
        Symbol::Backslash => Some((BinaryOperator::IntegerDivide, 3)),
        Symbol::Plus => Some((BinaryOperator::Add, 5)),
        Symbol::Minus => Some((BinaryOperator::Subtract, 5)),
        Symbol::Ampersand => Some((BinaryOperator::Concatenate, 6)),
        Symbol::ShiftLeft => Some((BinaryOperator::ShiftLeft, 7)),
        Symbol::ShiftRight => Some((BinaryOperator::ShiftRight, 7)),
        Symbol::Equal => Some((BinaryOperator::Relational(RelationalOperator::Equal), 8)),
        Symbol::NotEqual => Some((BinaryOperator::Relational(RelationalOperator::NotEqual), 8)),
        Symbol::Less => Some((BinaryOperator::Relational(RelationalOperator::Less), 8)),
        Symbol::LessOrEqual => Some((
            BinaryOperator::Relational(RelationalOperator::LessOrEqual),
            8,
        )),
        Symbol::Greater => Some((BinaryOperator::Relational(RelationalOperator::Greater), 8)),
        Symbol::GreaterOrEqual => Some((
            BinaryOperator::Relational(RelationalOperator::GreaterOrEqual),
            8,
        )),
        _ => None,
    }
}

fn word_between(word: Keyword) -> Option<(BinaryOperator, u8)>
    ensures { result ≡ spec.word_between word }
{
    match word {
        Keyword::Mod => Some((BinaryOperator::Mod, 4)),
        Keyword::Is => Some((BinaryOperator::Is, 8)),
        Keyword::IsNot => Some((BinaryOperator::IsNot, 8)),
        Keyword::And => Some((BinaryOperator::And, 10)),
        Keyword::AndAlso => Some((BinaryOperator::AndAlso, 10)),
        Keyword::Or => Some((BinaryOperator::Or, 11)),
        Keyword::OrElse => Some((BinaryOperator::OrElse, 11)),
        Keyword::Xor => Some((BinaryOperator::Xor, 12)),
        _ => None,
    }
}

/// The operator between two operands, and its strength.
pub fn operator_of(token: &Token) -> Option<(BinaryOperator, u8)>
    ensures { result ≡ spec.operator_of token.now }
{
    match token {
        Token::Symbol(sign) => sign_between(*sign),
        Token::Keyword(word) => word_between(*word),
        _ => None,
    }
}

fn word_unused(word: Keyword) -> bool
    ensures { result ≡ spec.word_unused word }
{
    matches!(
        word,
        Keyword::Alias
            | Keyword::CDate
            | Keyword::CDbl
            | Keyword::CDec
            | Keyword::CObj
            | Keyword::CSng
            | Keyword::Date
            | Keyword::Decimal
            | Keyword::Declare
            | Keyword::Default
            | Keyword::Double
            | Keyword::EndIf
            | Keyword::Enum
            | Keyword::Erase
            | Keyword::GetType
            | Keyword::GetXmlNamespace
            | Keyword::Global
            | Keyword::GoSub
            | Keyword::Handles
            | Keyword::Let
            | Keyword::Lib
            | Keyword::Like
            | Keyword::MyClass
            | Keyword::Namespace
            | Keyword::Narrowing
            | Keyword::Operator
            | Keyword::Optional
            | Keyword::ParamArray
            | Keyword::Partial
            | Keyword::Single
            | Keyword::Stop
            | Keyword::Structure
            | Keyword::Variant
            | Keyword::Wend
            | Keyword::Widening
            | Keyword::WithEvents
    )
}

fn is_unused(token: &Token) -> bool
    ensures { result ≡ spec.is_unused token.now }
{
    match token {
        Token::Keyword(word) => word_unused(*word),
        _ => false,
    }
}

/// There is a reserved word among them that the grammar doesn't use.
pub fn has_unused(tokens: &[Token]) -> bool
    ensures { result ≡ spec.has_unused tokens.now }
{
    let mut rest = tokens;
    while let [token, after @ ..] = rest {
        if is_unused(token) {
            return true;
        }
        rest = after;
    }
    false
}
