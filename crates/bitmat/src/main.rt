//! The program: its words and the real world, handed to the top call, whose status it ends with.
#![tactic(auto)]

mod real_world;

use bm_top::run_args;
use real_world::RealWorld;
use std::env;
use std::hash::{BuildHasherDefault, DefaultHasher, RandomState};
use std::process::ExitCode;

/// Texts are hashed by keys that the system draws at random. Where it draws none, they are hashed by fixed keys: the
/// answers are the same.
fn main(rt: HostRuntime) -> ExitCode {
    let alloc = rt.alloc();
    let args = env::args(&rt);
    let keys = RandomState::new(&rt);
    let mut world = RealWorld::new(rt);
    let status = match keys {
        Ok(hashers) => run_args(alloc, hashers, args, &mut world),
        Err(_) => {
            let hashers: BuildHasherDefault<DefaultHasher> = BuildHasherDefault::new();
            run_args(alloc, hashers, args, &mut world)
        }
    };
    ExitCode::from(status)
}
