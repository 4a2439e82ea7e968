// Where a byte first stands, in a line and in what is left of one.
ghost use Rattle.std.specs.Prelude.{◌≡◌, ◌==◌, position};

pub(crate) fn first_place(byte: u8, bytes: &[u8]) -> Option<usize>
    ensures { result ≡ position (λ b. b == byte) bytes.now }
{
    bytes.iter().position(|&b| b == byte)
}
