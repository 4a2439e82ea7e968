// A list of bytes in fixed memory.
ghost use Rattle.std.specs.Prelude.{◌≡◌, ◌+◌, ◌≤◌, [], ◌∷◌, ◌++◌, length};

use std::marker::Model;

// At most `N` bytes. A clause sees the list of them. The kit's `ArrayVec` cannot be copied, and a text, a choice and a command can: since a
// copy has to give back every byte of the array, those beyond the list are 0.
#[derive(Clone, Copy, Debug, PartialEq, Eq)]
pub struct Bytes<const N: usize> {
    bytes: [u8; N],
    len: usize,
}

impl<const N: usize> Model for Bytes<N> {
    ghost use Rattle.std.specs.Prelude.{ℕ, List, ◌≡◌, ◌≤◌, ◌-◌, ◌++◌, length, take, replicate};

    ghost Value = { List ℕ };

    ghost view = { λ b. take b.len b.bytes };

    ghost invariant = { λ b. (b.len ≤ N) × (take b.len b.bytes ++ replicate (N - b.len) 0 ≡ b.bytes) × (length b.bytes ≡ N) };

    ghost inverse = { λ bs. record { bytes = bs ++ replicate (N - length bs) 0; len = length bs } };
}

impl<const N: usize> Bytes<N> {
    pub fn new() -> Self
        ensures { result ≡ [] }
    {
        Bytes {
            bytes: [0; N],
            len: 0,
        }
    }

    pub fn as_slice(&self) -> &[u8]
        ensures bytes { result.now ≡ self.now }
        ensures fits { length result.now ≤ N }
    {
        &self.bytes[..self.len]
    }

    pub fn push(&mut self, byte: u8)
        requires { length self.old + 1 ≤ N }
        ensures { self.new ≡ self.old ++ byte ∷ [] }
    {
        self.bytes[self.len] = byte;
        self.len += 1;
    }

    pub fn extend(&mut self, part: &[u8])
        requires { length self.old + length part.now ≤ N }
        ensures { self.new ≡ self.old ++ part.now }
    {
        let end = self.len + part.len();
        // By a slice of the whole: a part of an array of `N` bytes is not lent by itself.
        let bytes = &mut self.bytes[..];
        bytes[self.len..end].copy_from_slice(part);
        self.len = end;
    }
}
