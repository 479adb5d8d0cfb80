// How many polls a caller may ask for.
ghost use Rattle.std.specs.Prelude.{◌≡◌};
ghost use Rattle.part.specs.Limit.{allowed};

pub const MOST_POLLS: usize = 4096;

// Whether a limit of polls is 1 to 4,096.
pub fn is_limit(limit: usize) -> bool
    ensures { result ≡ allowed limit }
{
    (1..=MOST_POLLS).contains(&limit)
}
