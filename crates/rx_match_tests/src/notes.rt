/// Budgets that are just enough, and one less.
pub const BUDGETS: &str = r"u ~ a|b ~ 2 ~ b => 0..1
u ~ a|b ~ 1 ~ b => spent
u ~ (a*)* ~ 4 ~ b => 0..0 -
u ~ (a*)* ~ 3 ~ b => spent
u ~ (?<=(\d+)(\d+))$ ~ 1000 ~ 1053 => 4..4 0..1 1..4
u ~ a\p{L} ~ 9 ~ a => unsupported 1..6";

/// The examples of the notes in ECMA-262, 22.2.2.
pub const NOTES: &str = r" ~ a|ab ~ 1000 ~ abc => 0..1
 ~ ((a)|(ab))((c)|(bc)) ~ 1000 ~ abc => 0..3 0..1 0..1 - 1..3 - 1..3
 ~ a[a-z]{2,4} ~ 1000 ~ abcdefghi => 0..5
 ~ a[a-z]{2,4}? ~ 1000 ~ abcdefghi => 0..3
 ~ (aa|aabaac|ba|b|c)* ~ 1000 ~ aabaac => 0..4 2..4
 ~ (z)((a+)?(b+)?(c))* ~ 1000 ~ zaacbbbcac => 0..10 0..1 8..10 8..9 - 9..10
 ~ (a*)* ~ 1000 ~ b => 0..0 -
 ~ (a*)b\1+ ~ 1000 ~ baaaac => 0..1 0..0
 ~ (?=(a+)) ~ 1000 ~ baaabac => 1..1 1..4
 ~ (?=(a+))a*b\1 ~ 1000 ~ baaabac => 3..6 3..4
 ~ (.*?)a(?!(a+)b\2c)\2(.*) ~ 1000 ~ baaabaac => 0..8 0..2 - 3..8";
