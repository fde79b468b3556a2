//! Loaders that share a chunk.

ghost use Rattle.std.specs.Prelude.{◌≡◌, true, length, All, IfOk};
ghost use Rattle.km_model.specs.Memory.{in_memory};

use km_base::{Addr, NoMemory};
use km_live_words::LiveWords;
use km_par::{Fetched, Loader, fetch};
use km_words::{Plain, Words};
use std::alloc::{AllocError, Global};
use std::process::Abort;
use std::thread::Threads;

const B: u64 = 0xffff_8880_0000_0000;

/// The first 256 words.
fn chunk(alloc: Global) -> Result<Vec<Addr>, AllocError>
    ensures words { IfOk result (λ v. All (λ a. in_memory 512 a.0 ≡ true) v.items) }
    ensures count { IfOk result (λ v. length v.items ≡ 256) }
{
    let mut at = Vec::with_capacity(alloc, 256)?;
    for i in 0..256 {
        at.push(Addr(B + 8 * i))?;
    }
    Ok(at)
}

/// Two loaders load a chunk, each a half of it.
fn shared(rt: &(impl Abort + Threads + Sync), alloc: Global) -> Result<(), NoMemory> {
    let Ok(at) = chunk(alloc) else {
        return Err(NoMemory);
    };
    let words = Plain::new(alloc, 512)?;
    let (live, mut main) = LiveWords::open(alloc, &words)?;
    live.store(&mut main, Addr(B), 5);
    live.store(&mut main, Addr(B + 2040), 6);
    let one = live.split(&mut main);
    let two = live.split(&mut main);
    let mut loaders = [Loader::new(one), Loader::new(two)];
    let mut out = Fetched::new();
    fetch(rt, &live, &mut loaders, at.as_slice(), &mut out);
    assert!(rt; out.loads().len() == 256, "a value a word");
    assert!(rt;
        loaders[0].share().len() == 128 && loaders[1].share().len() == 128,
        "halves"
    );
    assert!(rt; out.words() == 512);
    let (first, last) = (out.load(Addr(B)), out.load(Addr(B + 2040)));
    assert!(rt; first == 5 && last == 6, "what was stored");
    assert!(rt; out.load(Addr(B + 2048)) == 0, "no word of the chunk");
    Ok(())
}

#[test]
fn loaders_share_a_chunk(rt: HostRuntime) {
    let alloc: Global = rt.alloc();
    assert!(rt; shared(&rt, alloc).is_ok(), "memory");
}
