ghost use Rattle.std.specs.Prelude.{◌≡◌};
ghost use Rattle.rx_base.specs.Flags as set;

/// Whether a value is one of the flags `dgimsuvy`.
pub fn is_flag(value: u32) -> bool
    ensures { result ≡ set.is_flag value }
{
    char::from_u32(value).is_some_and(|flag| matches!(
        flag,
        'd' | 'g' | 'i' | 'm' | 's' | 'u' | 'v' | 'y'
    ))
}
