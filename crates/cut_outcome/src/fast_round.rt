ghost use Rattle.std.specs.Prelude.{◌≡◌, ◌≤◌};
ghost use Rattle.cut_outcome.specs.FastRound.{quorum_of};

/// How many equal proposals decide among `n` processes: `n` less a quarter of `n - 1`, rounded down. (The fast round is
/// the Rapid paper's; that failed processes count among the `n` is defined by this project.)
pub fn quorum(n: u16) -> u16
    requires { 1 ≤ n }
    ensures { result ≡ quorum_of n }
{
    n - (n - 1) / 4
}
