// Memory that is filled with one value.
ghost use Rattle.std.specs.Prelude.{◌≡◌, length, replicate};

// Every byte of what is lent is this value.
pub fn fill(lent: &mut [u8], value: u8)
    ensures { lent.new ≡ replicate (length lent.old) value }
{
    lent.fill(value);
}
