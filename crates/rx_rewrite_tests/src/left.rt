use crate::rewritten::read;
use rx_base::Span;
use rx_rewrite::modifiers_left;
use std::test::Fail;

#[test]
fn the_first_modifiers_with_i_are_left(rt: HostRuntime) -> Result<(), Fail> {
    for (text, wanted) in [
        ("(?i:a)", Some(Span::new(2, 3))),
        ("(?-i:a)", Some(Span::new(2, 4))),
        ("(?s:a)", None),
        ("(?:a)", None),
        ("a", None),
        ("(?ms-i:a)", Some(Span::new(2, 6))),
        ("(?m:(?i:a))", Some(Span::new(6, 7))),
        ("(?i:(?-i:a))", Some(Span::new(2, 3))),
        ("(?s:b)(?-i:a)(?i:c)", Some(Span::new(8, 10))),
        ("(?<=x(?m:y|(?i:z)))", Some(Span::new(13, 14))),
    ] {
        let (pattern, _) = read(rt.alloc(), text, "v").ok_or(text)?;
        assert_eq!(rt; modifiers_left(rt.alloc(), &pattern)?, wanted, "{text}");
    }
    Ok(())
}
