ghost use Rattle.std.specs.Prelude.{◌≡◌, ◌+◌, ◌^◌, ◌%◌, ◌<◌, ◌≤◌, ℕ};
ghost use Rattle.st_base.specs.Multiples as spec;

/// The next multiple of four: the number itself where it is one. Takes no memory.
pub fn aligned(number: u128) -> u128
    requires { number < 2 ^ 126 }
    ensures value { result ≡ spec.aligned number }
    ensures small { result ≤ number + 3 }
{
    (number + 3) / 4 * 4
}

/// The next multiple of four is a multiple of four, not below the number, and no other of these is less.
pub fn aligned_laws()
    ensures multiple { (n : ℕ) → spec.aligned n % 4 ≡ 0 }
    ensures reaches { (n : ℕ) → n ≤ spec.aligned n }
    ensures least { (n other : ℕ) → n ≤ other → other % 4 ≡ 0 → spec.aligned n ≤ other }
{}
