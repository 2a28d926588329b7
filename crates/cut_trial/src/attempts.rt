ghost use Rattle.std.specs.Prelude.{◌≡◌, Option, MatchOption};

/// The result of an attempt, or of a second one if the first has none: memory that was refused may have been given back
/// meanwhile.
pub fn twice<T, F: FnMut() -> Option<T>>(attempt: &mut F) -> Option<T>
    requires first { F.pre attempt.old }
    requires second { (given : Option T) (between : F) → F.step attempt.old given between → F.pre between }
    ensures { (given : Option T) × ((between : F) × (F.step attempt.old given between
        × MatchOption given (F.step between result attempt.new)
        (λ value. (result ≡ given) × (attempt.new ≡ between)))) }
{
    match attempt() {
        Some(value) => Some(value),
        None => attempt(),
    }
}
