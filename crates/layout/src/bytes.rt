// Bytes of which the first `len` count; those past them are zero. A fixed buffer with its length, since there is no heap.
#[derive(Clone, Copy)]
pub struct Bytes<const N: usize> {
    pub bytes: [u8; N],
    pub len: usize,
}
