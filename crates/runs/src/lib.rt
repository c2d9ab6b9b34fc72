// Whether two runs are equal.
#![tactic(auto)]

ghost use Rattle.std.specs.Prelude.{◌≡◌, true, ℕ, ◌<◌, get_or};

pub fn same_bytes(a: &[u8], b: &[u8]) -> bool
    ensures { (result ≡ true → a.now ≡ b.now) × (a.now ≡ b.now → result ≡ true) }
{
    a == b
}

// At each place.
pub fn same_numbers(a: &[usize; 24], b: &[usize; 24]) -> bool
    ensures { (result ≡ true → (k : ℕ) → k < 24 → get_or a.now k 0 ≡ get_or b.now k 0) × (((k : ℕ) → k < 24 → get_or a.now k 0 ≡ get_or b.now k 0) → result ≡ true) }
{
    *a == *b
}
