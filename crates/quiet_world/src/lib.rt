//! A world in memory that counts no failure. While it tells its content, a call of it fails only where its case is a
//! failure that can be told; want of memory ends the telling. So a promise that holds where no call failed, and where the
//! content is told, holds over it with nothing said of failures.
#![tactic(auto)]

mod quiet;

pub use quiet::Quiet;
