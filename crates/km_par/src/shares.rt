//! A chunk is loaded by all loaders at once.

ghost use Rattle.std.specs.Prelude.{◌≡◌, ℕ, ◌+◌, ◌*◌, ◌<◌, ◌≤◌, ◌++◌, true, length, All, flat_map};
ghost use Rattle.std.specs.Fork.{slice_chunk};
ghost use Rattle.std.specs.List.{AllZip};
ghost use Rattle.km_model.specs.Memory.{in_memory};
ghost use Rattle.km_par.specs.Loaders.{Covers, HasLoaded, HaveLoaded, IsFetched};

use crate::fetched::Fetched;
use crate::loader::Loader;
use km_base::Addr;
use km_live_words::LiveWords;
use std::thread::{Threads, for_each_mut};

/// A chunk of fewer words is loaded by one loader, since a thread costs more to start.
const AT_ONCE: usize = 256;

/// How many threads load so many words, and how many words each loader gets.
fn plan(count: usize, loaders: usize) -> (usize, usize)
    requires { 0 < loaders }
    ensures { (0 < result.0) × (result.1 ≤ count) × Covers count loaders result.1 }
{
    if count < AT_ONCE {
        (1, count)
    } else {
        (loaders, count.div_ceil(loaders))
    }
}

/// The run of words that the loader of this number gets.
fn share(at: &[Addr], each: usize, number: usize) -> &[Addr]
    requires few { length at.now ≤ 256 }
    requires each { each ≤ length at.now }
    ensures { result.now ≡ slice_chunk at.now each number }
{
    if number < at.len() {
        let from = (number * each).min(at.len());
        let to = (from + each).min(at.len());
        &at[from..to]
    } else {
        &at[at.len()..]
    }
}

/// Each loader loads its share.
fn load_shares<R: Threads + Sync>(
    rt: &R,
    words: &LiveWords,
    loaders: &mut [Loader],
    at: &[Addr],
    threads: usize,
    each: usize,
)
    requires hands { All (λ l. l.hand.table ≡ words.now.table) loaders.old }
    requires few { length at.now ≤ 256 }
    requires words { All (λ a. in_memory (length words.now.words) a.0 ≡ true) at.now }
    requires plan { (0 < threads) × (each ≤ length at.now) }
    ensures { HaveLoaded at.now each loaders.old loaders.new }
{
    for_each_mut(
        rt,
        loaders,
        threads,
        &|number, l: &mut Loader|
            requires hand { l.old.hand.table ≡ words.now.table }
            requires few { length at.now ≤ 256 }
            requires words { All (λ a. in_memory (length words.now.words) a.0 ≡ true) at.now }
            requires each { each ≤ length at.now }
            ensures { HasLoaded (slice_chunk at.entry.now each number) l.old l.new }
        { l.load_all(words, share(at, each, number)) },
    );
}

/// Adds up what loaders loaded.
fn gather(loaders: &[Loader], out: &mut Fetched)
    requires { length out.old.loads + length (flat_map (λ l. l.share) loaders.now) ≤ 256 }
    ensures { out.new ≡ record { size = out.old.size; loads = out.old.loads ++ flat_map (λ l. l.share) loaders.now } }
{
    for i in 0..loaders.len() {
        out.add_all(loaders[i].share());
    }
}

/// Loads the words of a chunk: the loaders load its shares at once.
pub fn fetch<R: Threads + Sync>(
    rt: &R,
    words: &LiveWords,
    loaders: &mut [Loader],
    at: &[Addr],
    out: &mut Fetched,
)
    requires loaders { 0 < length loaders.old }
    requires hands { All (λ l. l.hand.table ≡ words.now.table) loaders.old }
    requires few { length at.now ≤ 256 }
    requires words { All (λ a. in_memory (length words.now.words) a.0 ≡ true) at.now }
    ensures { IsFetched words.now at.now loaders.old loaders.new out.new }
{
    let (threads, each) = plan(at.len(), loaders.len());
    load_shares(rt, words, loaders, at, threads, each);
    out.begin(words.words());
    gather(loaders, out);
}
