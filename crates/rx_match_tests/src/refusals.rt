/// The flag comes first, then the first node in the order of the text, then the budget.
pub const REFUSALS: &str = r"i ~ \d ~ 1000 ~ 1 => flag
iu ~ \p{L} ~ 1000 ~ 1 => flag
u ~ a(?i:\p{L}) ~ 1000 ~ a => unsupported 3..4
u ~ a(?s-i:\p{L})(?i:a) ~ 1000 ~ a => unsupported 3..6
u ~ a(?s:\p{L})(?i:a) ~ 1000 ~ a => unsupported 5..10
u ~ [a^\p{L}]|\P{L} ~ 1000 ~ a => unsupported 3..8
v ~ [a[^\p{L}]]|\P{L} ~ 1000 ~ a => unsupported 4..9
v ~ [a[\q{a|bc}]]\p{L} ~ 1000 ~ a => unsupported 3..11
v ~ (?:(?=x\p{L}))* ~ 0 ~  => unsupported 7..12
u ~ a ~ 0 ~ b => spent";
