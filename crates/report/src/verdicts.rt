// The answer yes or no.
ghost use Rattle.std.specs.Prelude.{◌≡◌, true, false, codes};

// The line that says so.
pub fn verdict(is_so: bool) -> &'static str
    ensures yes { is_so ≡ true → result.now ≡ codes "yes\n" }
    ensures no { is_so ≡ false → result.now ≡ codes "no\n" }
{
    if is_so { "yes\n" } else { "no\n" }
}
