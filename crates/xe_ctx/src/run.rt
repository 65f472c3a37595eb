//! A store of the running step, kept as one until the step takes effect.

ghost use Rattle.std.specs.Prelude.{◌≡◌, ◌+◌, ◌<◌, ◌≤◌, ◌^◌, ◌⊎◌, List, length, true, false};
ghost use Rattle.xe_base.specs.Bytes.{le};
ghost use Rattle.xe_base.specs.Ram.{Area, bytes_of, put_bytes, AreRam};
ghost use Rattle.xe_ctx.specs.Chunks.{is_size};

use crate::chunk::all_bytes;
use xe_mem::GuestMem;

/// Bytes that the step has changed, one behind another: the `size` low bytes of a number, the lowest first.
#[derive(Clone, Copy, Debug)]
pub(crate) struct Run {
    pub at: u64,
    pub size: u8,
    pub value: u128,
    ghost sized: { is_size size ≡ true },
    ghost below: { at + size < 2 ^ 64 },
}

impl Default for Run {
    fn default() -> Run {
        Run {
            at: 0,
            size: 1,
            value: 0,
        }
    }
}

impl Run {
    /// Whether one of its bytes is among these `n`.
    #[inline(always)]
    pub fn meets(&self, pa: u64, n: u64) -> bool
        ensures apart { result ≡ false → (self.now.at + self.now.size ≤ pa) ⊎ (pa + n ≤ self.now.at) }
    {
        if pa <= self.at {
            self.at - pa < n
        } else {
            pa - self.at < self.size as u64
        }
    }

    /// Its bytes take the place of those that were read there.
    #[inline(never)]
    pub fn lay_over(&self, pa: u64, out: &mut [u8])
        ensures { (ram : List Area) → AreRam ram pa (length out.old) → out.old ≡ bytes_of ram pa (length out.old) → out.new ≡ bytes_of (put_bytes ram self.now.at (le self.now.size self.now.value)) pa (length out.old) }
    {
        let all = all_bytes(self.value);
        for (i, b) in all[..self.size as usize].iter().enumerate() {
            let at = self.at + i as u64;
            if pa <= at && at - pa < out.len() as u64 {
                out[(at - pa) as usize] = *b;
            }
        }
    }

    /// Its bytes go into the RAM. Their count is a constant in each branch, so that they are moved as one.
    #[inline(always)]
    pub fn put(&self, mem: &mut GuestMem)
        requires { AreRam mem.old self.now.at self.now.size }
        ensures { mem.new ≡ put_bytes mem.old self.now.at (le self.now.size self.now.value) }
    {
        match self.size {
            1 => put_low(mem, self.at, self.value, 1),
            2 => put_low(mem, self.at, self.value, 2),
            4 => put_low(mem, self.at, self.value, 4),
            8 => put_low(mem, self.at, self.value, 8),
            _ => put_low(mem, self.at, self.value, 16),
        }
    }
}

/// The low bytes of a number go into the RAM. Each size makes the bytes for itself: bytes that several
/// share would be made one by one.
#[inline(always)]
fn put_low(mem: &mut GuestMem, at: u64, value: u128, n: usize)
    requires small { n ≤ 16 }
    requires ram { AreRam mem.old at n }
    ensures { mem.new ≡ put_bytes mem.old at (le n value) }
{
    let all = all_bytes(value);
    mem.store(at, &all[..n]);
}
