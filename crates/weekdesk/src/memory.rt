// Memory that is lent to an operation.
use command::command::Lent;
use lent::fill::fill;

// The first `size` bytes of what there is are lent; no more of a larger size. A size beside an array: an `ArrayVec` would be
// emptied and filled again byte by byte, where the bytes are written over at once.
#[derive(Clone, Copy, Debug, PartialEq, Eq)]
pub(crate) struct Memory<const N: usize> {
    bytes: [u8; N],
    size: usize,
}

impl<const N: usize> Memory<N> {
    pub fn zeros(size: usize) -> Self {
        Memory {
            bytes: [0; N],
            size,
        }
    }

    // `table SIZE V`, `log SIZE V`: ‘lend a picks table, a log, of SIZE bytes, each V’
    pub fn lend(&mut self, lent: Lent) {
        self.size = lent.size;
        fill(self.lent_mut(), lent.value);
    }

    pub fn lent(&self) -> &[u8] {
        &self.bytes[..self.size.min(N)]
    }

    pub fn lent_mut(&mut self) -> &mut [u8] {
        &mut self.bytes[..self.size.min(N)]
    }
}
