use crate::tokens::tokens_of;
use rx_base::Fault;
use rx_rows::{Call, agree, short};
use rx_tools::{Form, Options, read_pattern};
use std::alloc::Global;
use std::test::Fail;

/// The tokens of a pattern, which stands after its flags.
struct Paint;

impl Call for Paint {
    fn answer(&self, alloc: Global, asked: &str) -> Result<String, Fail> {
        let (flags, text) = asked.split_once(' ').ok_or("no flags")?;
        let (flags, text) = (Some(short(flags)?), short(text)?);
        match read_pattern(alloc, Form::Literal, text, flags, Options::default()) {
            Ok((pattern, _)) => tokens_of(alloc, &pattern),
            Err(Fault::Diagnostic(cause)) => Err(Fail::new(cause.name())),
            Err(Fault::OutOfMemory) => Err(Fail::new("out of memory")),
        }
    }
}

const GROUPS_AND_BARS: &str =
    r"u (a|\.)+ => 0..1=group 1..2=char 2..3=bar 3..5=escape 5..6=group 6..7=quantifier
u () => 0..2=group
u  => 0..4=group
u (?:a) => 0..3=group 3..4=char 4..5=group
u (?<n>a) => 0..5=group 5..6=char 6..7=group
u (?=a) => 0..3=group 3..4=char 4..5=group
u (?<!a) => 0..4=group 4..5=char 5..6=group
u a|b => 0..1=char 1..2=bar 2..3=char
u || => 0..2=bar
u (|) => 0..1=group 1..2=bar 2..3=group
u (?i:[a-z]) => 0..2=group 2..3=modifier 3..4=group 4..5=class 5..6=char 6..7=class 7..8=char 8..9=class 9..10=group
u (?i:a) => 0..2=group 2..3=modifier 3..4=group 4..5=char 5..6=group
u (?s-im:) => 0..2=group 2..6=modifier 6..8=group";

const CHARACTERS: &str = r"u ab => 0..1=char 1..2=char
u é😀 => 0..2=char 2..6=char
u \n\x41 => 0..2=escape 2..6=escape
u \u{41}\. => 0..6=escape 6..8=escape
u . => 0..1=dot
u a.. => 0..1=char 1..2=dot 2..3=dot
u ^$ => 0..1=assert 1..2=assert
u \b\B => 0..2=assert 2..4=assert
u a* => 0..1=char 1..2=quantifier
u a{1,2}? => 0..1=char 1..7=quantifier
u (a)\1 => 0..1=group 1..2=char 2..3=group 3..5=reference
u (?<n>a)\k<n> => 0..5=group 5..6=char 6..7=group 7..12=reference";

const CLASSES: &str = r"v \d\W => 0..2=set 2..4=set
v \p{L}\P{L} => 0..5=set 5..10=set
v [\d] => 0..1=class 1..3=set 3..4=class
v [] => 0..2=class
v [^a] => 0..2=class 2..3=char 3..4=class
v [a-b] => 0..1=class 1..2=char 2..3=class 3..4=char 4..5=class
v [[a]b] => 0..1=class 1..2=class 2..3=char 3..4=class 4..5=char 5..6=class
v [a&&b] => 0..1=class 1..2=char 2..4=class 4..5=char 5..6=class
v [\q{ab|c}] => 0..1=class 1..4=class 4..5=char 5..6=char 6..7=class 7..8=char 8..9=class 9..10=class";

const CODE_UNITS: &str = " 😀 => 0..4=char
 [a-] => 0..1=class 1..2=char 2..3=char 3..4=class";

#[test]
fn tokens_of_patterns(rt: HostRuntime) -> Result<(), Fail> {
    for rows in [GROUPS_AND_BARS, CHARACTERS, CLASSES, CODE_UNITS] {
        agree(rt.alloc(), &Paint, rows)?;
    }
    Ok(())
}
