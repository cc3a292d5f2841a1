ghost use Rattle.std.specs.Prelude.{◌≡◌};

/// A value that workers may send and share, as it is.
pub fn shareable<T: Send + Sync>(value: T) -> T
    ensures { result ≡ value }
{
    value
}
