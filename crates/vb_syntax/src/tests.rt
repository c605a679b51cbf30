use super::*;
use std::test::Fail;
use vb_text::NameTable;

#[test]
fn words_and_symbols_have_texts(rt: HostRuntime) -> Result<(), Fail> {
    for (keyword, text) in [
        (Keyword::AddHandler, "addhandler"),
        (Keyword::GetXmlNamespace, "getxmlnamespace"),
        (Keyword::Xor, "xor"),
    ] {
        assert_eq!(rt; keyword.text(), text);
    }
    for (symbol, text) in [
        (Symbol::OpenParenthesis, "("),
        (Symbol::BackslashEqual, "\\="),
        (Symbol::ShiftRightEqual, ">>="),
    ] {
        assert_eq!(rt; symbol.text(), text);
    }
    Ok(())
}

// Each word has one name in any case, and no other word has it.
#[test]
fn words_of_some_places_have_names(rt: HostRuntime) -> Result<(), Fail> {
    let mut names = NameTable::new(rt.alloc())?;
    let words = ContextualWords::new(&mut names)?;
    let named = [
        (words.binary, "binary"),
        (words.compare, "COMPARE"),
        (words.custom, "custom"),
        (words.explicit, "EXPLICIT"),
        (words.infer, "infer"),
        (words.iterator, "ITERATOR"),
        (words.off, "off"),
        (words.strict, "STRICT"),
        (words.text, "text"),
        (words.until, "UNTIL"),
        (words.yields, "yield"),
    ];
    for (name, text) in named {
        assert_eq!(rt; names.intern(text)?, name);
        let count = named.iter().filter(|other| other.0 == name).count();
        assert_eq!(rt; count, 1);
    }
    assert_eq!(rt; ContextualWords::new(&mut names)?, words);
    Ok(())
}
