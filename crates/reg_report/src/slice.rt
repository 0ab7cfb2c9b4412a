//! A slice as a source.
ghost use Rattle.std.specs.Prelude.{◌≡◌, Some};

use byte_ends::{IoFail, Source};

/// The bytes of a slice that are left, as a source that never fails.
#[derive(Drop)]
pub(crate) struct SliceSource<'a> {
    left: &'a [u8],
}

impl<'a> SliceSource<'a> {
    /// All the bytes of the slice.
    pub(crate) fn new(bytes: &'a [u8]) -> Self
        ensures { result.left.now ≡ bytes.entry.now }
    {
        SliceSource { left: bytes }
    }
}

impl Source for SliceSource<'_> {
    ghost left = { λ s. Some s.left.now };

    ghost failed = { λ _. 0 };

    fn pull(&mut self, into: &mut [u8]) -> Result<usize, IoFail> {
        let count = into.len().min(self.left.len());
        let (now, later) = self.left.split_at(count);
        into[..count].copy_from_slice(now);
        self.left = later;
        Ok(count)
    }

    fn failures(&self) -> u64 {
        0
    }
}
