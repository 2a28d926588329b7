ghost use Rattle.std.specs.Prelude.{◌≤◌};

/// The number of workers from 1 to 64 that is nearest to `number`: a study can have no other.
pub fn workers_from(number: u32) -> u32
    ensures least { 1 ≤ result }
    ensures most { result ≤ 64 }
{
    number.clamp(1, 64)
}
