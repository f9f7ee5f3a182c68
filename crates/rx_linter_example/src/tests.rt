use crate::{Note, Noted, notes};
use rx_base::{Diagnostic, Fault, Span};
use std::test::Fail;

#[test]
fn lookbehinds_and_named_groups(rt: HostRuntime) -> Result<(), Fail> {
    let found = notes(
        rt.alloc(),
        "(?<a>(?<=b)c)(?=d)(?:(e))|(?<!(?<f>g))",
        Some("u"),
    )?;
    let wanted = [
        Note {
            noted: Noted::NamedGroup,
            span: Span::new(0, 13),
        },
        Note {
            noted: Noted::Lookbehind,
            span: Span::new(5, 11),
        },
        Note {
            noted: Noted::Lookbehind,
            span: Span::new(26, 38),
        },
        Note {
            noted: Noted::NamedGroup,
            span: Span::new(30, 37),
        },
    ];
    assert_eq!(rt; found.as_slice(), wanted.as_slice());
    Ok(())
}

#[test]
fn refused_patterns(rt: HostRuntime) {
    let refused = notes(rt.alloc(), "(?<a>", None);
    assert!(rt;
        matches!(
            refused,
            Err(Fault::Diagnostic(Diagnostic::UnterminatedPattern { .. }))
        )
    );
}
