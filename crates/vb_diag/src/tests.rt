use super::*;
use std::test::Fail;

#[test]
fn tells_a_refusal(rt: HostRuntime) -> Result<(), Fail> {
    for (rule, line, text) in [
        (
            Rule::new(1),
            1,
            "a/b.vb(1): error V001: the file isn't UTF-8\n",
        ),
        (
            Rule::new(33),
            7,
            "a/b.vb(7): error V033: nesting is deeper than 100\n",
        ),
        (
            Rule::new(174),
            4_294_967_295,
            "a/b.vb(4294967295): error V174: a procedure has more than 65535 statements\n",
        ),
        (
            Rule::new(999),
            1,
            "a/b.vb(1): error V999: the form isn't built yet\n",
        ),
    ] {
        let refusal = Refusal {
            rule,
            file: 0,
            line,
        };
        let mut told = [35].to_vec(rt.alloc())?;
        refusal_line("a/b.vb", &refusal, &mut told)?;
        let told = String::from_utf8_lossy(rt.alloc(), &told)?;
        assert_eq!(rt; told.strip_prefix("#"), Some(text));
    }
    Ok(())
}

#[test]
fn tells_the_least(rt: HostRuntime) -> Result<(), Fail> {
    let here = broken_at(1, Rule::new(4), Some(7));
    for (file, number, line) in [(0, 30, 9), (1, 30, 2), (1, 3, 7)] {
        let before = broken_at(file, Rule::new(number), Some(line));
        assert_eq!(rt; lesser(here, before), before);
        assert_eq!(rt; lesser(before, here), before);
    }
    assert_eq!(rt; lesser(here, broken_at(0, Rule::new(1), None)), here);
    assert_eq!(rt; lesser(Some(3), Some(2)), Some(2));
    Ok(())
}
