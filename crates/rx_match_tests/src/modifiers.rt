/// Modifiers turn settings on and off.
pub const MODIFIERS: &str = r" ~ (?s:.). ~ 1000 ~ «A»«A»x => 1..3
 ~ (?s:.). ~ 1000 ~ a«A» => none
s ~ (?-s:.) ~ 1000 ~ «A»«D» => none
s ~ (?-s:.) ~ 1000 ~ «A»q => 1..2
 ~ (?s:(?-s:.)). ~ 1000 ~ «A»ab => 1..3
 ~ (?m:^)a ~ 1000 ~ b«A»a => 2..3
m ~ (?-m:^)a ~ 1000 ~ b«A»a => none
 ~ (?<=(?m:^)a)b ~ 1000 ~ x«A»ab => 3..4";

/// A name means the least group that is set.
pub const NAMES: &str = r" ~ (?:(?<y>a)|(?<y>b))\k<y> ~ 1000 ~ aa => 0..2 0..1 -
 ~ (?:(?<y>a)|(?<y>b))\k<y> ~ 1000 ~ bb => 0..2 - 0..1
 ~ (?:(?<y>a)|(?<y>b))\k<y> ~ 1000 ~ ab => none
 ~ (?:(?<y>a)|(?<y>b)|c)+\k<y> ~ 1000 ~ abb => 0..3 - 1..2
 ~ (?:(?<y>a)|(?<y>b)|c)+\k<y> ~ 1000 ~ aba => none
 ~ (?:(?<y>a)|(?<y>b)|c)+\k<y> ~ 1000 ~ cc => 0..2 - -";

/// The ends of the buffer are those of the whole input.
pub const ENDS_OF_THE_BUFFER: &str = r"mu ~ \Aa ~ 1000 ~ b«A»a => none
mu ~ \Aa ~ 1000 ~ ab => 0..1
mu ~ a\z ~ 1000 ~ a«A»a => 2..3
mu ~ a\z ~ 1000 ~ a«A» => none
u ~ a\Z ~ 1000 ~ a«A» => 0..1
u ~ a\Z ~ 1000 ~ a«D»«A» => 0..1
u ~ a\Z ~ 1000 ~ a«A»«D» => none
u ~ a\Z ~ 1000 ~ a«2028» => 0..1
u ~ a\Z ~ 1000 ~ a => 0..1
u ~ a\Z ~ 1000 ~ ab => none";
