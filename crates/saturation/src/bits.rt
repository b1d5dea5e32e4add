// Sets of bits, two words of 32 for each node. What sets bits says whether one was new.
// Functions on lent words, and no struct: `saturate` and `rank` promise of lent words, and a struct would wrap them
// first, for the same methods.
ghost use Rattle.std.specs.Prelude.{◌≡◌, ℕ, ◌+◌, ◌*◌, ◌<◌, true, false, length};
ghost use Rattle.saturation.specs.Bits.{On, Grew, Merged, Joined, Added};
ghost use Rattle.saturation.specs.Marks.{Removed};

// Puts `bits` into the word at `i`; says whether one of them was new.
pub(crate) fn merge(table: &mut [u32], i: usize, bits: u32) -> bool
    requires { i < length table.old }
    ensures merged { Merged table.old table.new i bits }
    ensures grew { Grew table.old table.new result }
{
    let old = table[i];
    let all = old | bits;
    table[i] = all;
    all != old
}

// The bits of node `from` go into node `to`; says whether one was new.
pub(crate) fn join(table: &mut [u32], from: usize, to: usize) -> bool
    requires { (2 * from + 1 < length table.old) × (2 * to + 1 < length table.old) }
    ensures joined { Joined table.old table.new from to }
    ensures grew { Grew table.old table.new result }
{
    let low = table[2 * from];
    let new_low = merge(table, 2 * to, low);
    let high = table[2 * from + 1];
    let new_high = merge(table, 2 * to + 1, high);
    new_low | new_high
}

// Sets bit `x` of node `n`; says whether it was new.
pub fn add(table: &mut [u32], n: usize, x: usize) -> bool
    requires { (2 * n + 1 < length table.old) × (x < 64) }
    ensures added { Added table.old table.new n x }
    ensures grew { Grew table.old table.new result }
{
    merge(table, 2 * n + x / 32, 1 << (x % 32))
}

// Clears bit `x` of node `n`, which is set.
pub fn remove(table: &mut [u32], n: usize, x: usize)
    requires within { (2 * n + 1 < length table.old) × (x < 64) }
    requires is { On table.old n x }
    ensures { Removed table.old table.new n x }
{
    table[2 * n + x / 32] ^= 1 << (x % 32);
}

// Whether bit `x` of node `n` is set.
pub fn has(table: &[u32], n: usize, x: usize) -> bool
    requires { (2 * n + 1 < length table.now) × (x < 64) }
    ensures yes { result ≡ true → On table.now n x }
    ensures no { result ≡ false → On table.now n x → ⊥ }
{
    table[2 * n + x / 32] >> (x % 32) & 1 == 1
}

// Whether no bit of node `n` is set.
pub fn is_empty(table: &[u32], n: usize) -> bool
    requires { 2 * n + 1 < length table.now }
    ensures yes { result ≡ true → (x : ℕ) → x < 64 → On table.now n x → ⊥ }
    ensures no { result ≡ false → (x : ℕ) × (x < 64) × On table.now n x }
{
    table[2 * n] == 0 && table[2 * n + 1] == 0
}
