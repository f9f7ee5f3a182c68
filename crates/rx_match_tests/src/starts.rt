/// A match from one place looks at no other.
pub const FROM_ONE_PLACE: &str = r"u ~ a|b ~ 2 ~ b => 0..1
u ~ b ~ 9 ~ ab => none
 ~ (?=(a+)) ~ 9 ~ baaabac => none
u ~ (a)(?<n>b)c ~ 5 ~ abc => 0..3 0..1 1..2
u ~ (a)(?<n>b)c ~ 4 ~ abc => spent
u ~ b ~ 1 ~ ab ~ 1 => 1..2
u ~ a ~ 1 ~ ab ~ 1 => none
u ~ a ~ 0 ~ ab ~ 1 => spent
u ~ a* ~ 2 ~ aa ~ 2 => 2..2
u ~ (?<=(a))b ~ 4 ~ ab ~ 1 => 1..2 0..1";

/// A search begins where it starts.
pub const STARTS: &str = r"u ~ a ~ 1 ~ aba => 0..1
u ~ a ~ 2 ~ aba ~ 1 => 2..3
u ~ a ~ 1 ~ aba ~ 1 => spent
u ~ a ~ 1 ~ aba ~ 2 => 2..3
u ~ a ~ 1 ~ aba ~ 3 => none
u ~ a ~ 0 ~ aba ~ 3 => spent
u ~ (?<=a)b ~ 3 ~ ab ~ 1 => 1..2
u ~ ^a ~ 9 ~ aa ~ 1 => none
mu ~ ^a ~ 9 ~ a«A»a ~ 1 => 2..3
u ~ \ba ~ 9 ~ aa ~ 1 => none
u ~ \Aa ~ 9 ~ aa ~ 1 => none
u ~ $ ~ 1 ~ ab ~ 2 => 2..2
 ~ . ~ 1 ~ «1F600» ~ 1 => 1..2
u ~ a ~ 18446744073709551615 ~ ba => 1..2";
