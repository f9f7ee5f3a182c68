use crate::{Finding, inspect};
use rx_base::Span;
use std::test::Fail;

#[test]
fn findings(rt: HostRuntime) -> Result<(), Fail> {
    let Finding::Read { groups, spelling } = inspect(rt.alloc(), "(?<a>(?:(b)){2})", Some("u"))?
    else {
        return Err(Fail::new("not read"));
    };
    assert_eq!(rt; groups, 2);
    assert_eq!(rt; spelling.as_str(), "(?<a>(?:(b)){2})");
    let Finding::Refused(refused) = inspect(rt.alloc(), "(?<a>)(?<a>)", Some("u"))? else {
        return Err(Fail::new("not refused"));
    };
    assert_eq!(rt; refused.name, "duplicated_capturing_group_names");
    assert_eq!(rt;
        (refused.first, refused.second),
        (Span::new(3, 4), Some(Span::new(9, 10)))
    );
    assert_eq!(rt;
        refused.message.as_str(),
        "Invalid regular expression: Duplicated capturing group names"
    );
    let Finding::Read { groups, spelling } = inspect(rt.alloc(), "([\\w--[!]])", Some("v"))? else {
        return Err(Fail::new("not read under v"));
    };
    assert_eq!(rt; groups, 1);
    assert_eq!(rt; spelling.as_str(), "([\\w--[\\!]])");
    Ok(())
}
