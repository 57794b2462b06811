//! One run, and the bytes that spell it.

ghost use Rattle.std.specs.Prelude.{◌≡◌, ◌+◌, ◌-◌, ◌*◌, ◌^◌, ◌<◌, ◌≤◌, [], ◌∷◌, ◌++◌, length, drop, IfSome, IfNone};
ghost use Rattle.run_rows.specs.Encoding.{run_bytes, runs_in};

use byte_tables::{pair_at, split_pair};

/// Numbers next to one another: `len` of them, from `start` on.
#[derive(Clone, Copy, Debug)]
pub struct Run {
    pub start: u32,
    pub len: u32,
}

impl Run {
    /// The number after the last one.
    pub fn end(self) -> u64
        ensures { result ≡ self.start + self.len }
    {
        u64::from(self.start) + u64::from(self.len)
    }

    /// The run without its first number.
    pub fn tail(self) -> Run
        requires some { 0 < self.len }
        requires fits { self.start + self.len < 2 ^ 32 }
        ensures { result ≡ record { start = self.start + 1; len = self.len - 1 } }
    {
        Run {
            start: self.start + 1,
            len: self.len - 1,
        }
    }
}

/// The first run, and the bytes after it. `None` where there are fewer than eight bytes.
#[tactic(auto, using(crate::proofs::ByteLaws::runs_of_pairs), unfolding(crate::specs::Encoding::run_bytes))]
pub fn split_run(bytes: &[u8]) -> Option<(Run, &[u8])>
    ensures spelled { IfSome result (λ parts. bytes.now ≡ run_bytes parts.0 ++ parts.1.now) }
    ensures first { IfSome result (λ parts. runs_in bytes.now ≡ parts.0 ∷ runs_in parts.1.now) }
    ensures short { IfNone result (length bytes.now < 8) }
    ensures none { IfNone result (runs_in bytes.now ≡ []) }
{
    let ((start, len), rest) = split_pair(bytes)?;
    Some((Run { start, len }, rest))
}

/// The run in place `i`.
#[tactic(auto, using(crate::proofs::ByteLaws::runs_of_pairs))]
pub fn run_at(bytes: &[u8], i: usize) -> Run
    requires { 8 * i + 8 ≤ length bytes.now }
    ensures { drop i (runs_in bytes.now) ≡ result ∷ drop (i + 1) (runs_in bytes.now) }
{
    let (start, len) = pair_at(bytes, i);
    Run { start, len }
}
